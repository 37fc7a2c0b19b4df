// The fit of a task that nothing refuses: its rounds, its last pass and its report.
ghost use Rattle.std.specs.Prelude.{◌≡◌, length};
ghost use Rattle.steps.specs.Space.{cleared};
ghost use Rattle.rule.specs.Givens.{problem_given, fit_given};
ghost use Rattle.rule.specs.Sizes.{task_need, Lent};
ghost use Rattle.rule.specs.Calls.{report_of};
ghost use Rattle.strlsq.specs.Ends.{Ends, Saw};

use coeffs::inner::{coefficient, prune, support_of};
use first::inner::run;
use leftover::inner::squared_error;
use rule::inner::needed;
use rule::{Given, Look, Report, Stop};
use slices::inner::clear;
use support::Term;

// How a fit ended, and what it saw of the term that was watched: the look that dropped it, and its last coefficient before the last pass.
#[derive(Clone, Copy, Debug, PartialEq)]
pub struct Watched {
    pub stop: Stop,
    pub refits: usize,
    pub drop: Option<Look>,
    pub last: f64,
}

// The fit in a workspace that is left as it comes: the rounds, and the last pass. Whichever term is watched, the fit is the same.
pub fn fit_in(given: Given, term_idx: Term, coeffs: &mut [f64], ws: &mut [f64]) -> Watched
    requires { Lent given.task coeffs.old ws.old }
    ensures { Ends (fit_given given.entry) result.stop result.refits coeffs.new
        × Saw (problem_given given.entry) given.entry.task.setup.max_iter term_idx.0 result.drop result.last }
{
    let ran = run(given, term_idx, coeffs, ws);
    let last = coefficient(coeffs, term_idx);
    prune(coeffs, given.task.setup);
    Watched {
        stop: ran.stop,
        refits: ran.refits,
        drop: ran.drop,
        last,
    }
}

// A fit that nothing refuses: in as much of the workspace as it needs, which is cleared.
pub fn fit_ready(given: Given, term_idx: Term, coeffs: &mut [f64], workspace: &mut [f64]) -> Watched
    requires { Lent given.task coeffs.old workspace.old }
    ensures { Ends (fit_given given.entry) result.stop result.refits coeffs.new
        × Saw (problem_given given.entry) given.entry.task.setup.max_iter term_idx.0 result.drop result.last
        × (workspace.new ≡ cleared (task_need given.entry.task) workspace.old) }
{
    let need = needed(given.task.solver, given.task.rows, given.task.cols);
    let watched = fit_in(given, term_idx, coeffs, &mut workspace[0..need]);
    clear(workspace, need);
    watched
}

// The report of a fit that ended so and left these coefficients: the word of those that are kept, and the squared error that their terms leave.
pub fn report(given: Given, watched: Watched, coeffs: &[f64]) -> Report
    requires { (length coeffs.now ≡ given.task.cols)
        × Ends (fit_given given) watched.stop watched.refits coeffs.now }
    ensures { result ≡ report_of (fit_given given.entry) }
{
    let kept = support_of(coeffs, given.task.setup);
    Report {
        stop: watched.stop,
        refits: watched.refits,
        kept,
        error: squared_error(given.theta(), given.target, kept, coeffs),
    }
}
