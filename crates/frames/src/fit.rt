// The fit of an input that was accepted.
ghost use Rattle.std.specs.Prelude.{◌≡◌, ◌≤◌, length};
ghost use Rattle.hexdigits.specs.Put.{Written};
ghost use Rattle.rule.specs.Givens.{fit_given};
ghost use Rattle.rule.specs.Sizes.{Limited};
ghost use Rattle.exchange.specs.Limits.{most_cols, most_rows, most_space};
ghost use Rattle.exchange.specs.Exchange.{Accepted};
ghost use Rattle.frames.specs.Limits.{answer_room};
ghost use Rattle.frames.specs.Exchange.{fit_asked, fit_lines};

use exchange::inner::{COLS, ROWS, SPACE, THETA, read_given};
use rule::{Given, Task};
use strlsq::inner::{fit_in, report};
use support::Term;
use writer::inner::write_fit;

// Fits what is given, and writes the lines.
#[tactic(auto, using(exchange::specs::Room::ready_within, rule::specs::Sizes::ready_lent), unfolding(crate::specs::Exchange::fit_lines))]
fn fit_into(given: Given, coeffs: &mut [f64], workspace: &mut [f64], out: &mut [u8]) -> usize
    requires { Limited most_cols most_rows given.task
        × (length coeffs.old ≡ given.task.cols) × (length workspace.old ≡ most_space) × (answer_room ≤ length out.old) }
    ensures { Written 0 (fit_lines (fit_given given.entry)) out.old out.new result }
{
    let watched = fit_in(given, Term(0), coeffs, workspace);
    write_fit(report(given, watched, coeffs), coeffs, out)
}

// Reads the rows of an accepted input, and writes the lines of their fit.
#[tactic(auto, unfolding(crate::specs::Exchange::fit_asked))]
pub fn fit_rows(s: &[u8], task: Task, out: &mut [u8]) -> usize
    requires { Accepted s.now task × (answer_room ≤ length out.old) }
    ensures { Written 0 (fit_lines (fit_asked s.now task)) out.old out.new result }
{
    let mut theta = [0.0; THETA];
    let mut target = [0.0; ROWS];
    let given = read_given(s, task, &mut theta, &mut target);
    let mut coeffs = [0.0; COLS];
    let mut workspace = [0.0; SPACE];
    fit_into(given, &mut coeffs[..task.cols], &mut workspace, out)
}
