// The fit of a task, total: the solver is the task's, and so is the way that theta is stored.
#![tactic(auto)]

pub mod inner;

ghost use Rattle.rule.specs.Calls.{FitCall};

use crate::inner::{fit_ready, report};
use refusal::Refusal;
use rule::inner::fit_sizes;
use rule::{Given, Report, Task};
use support::Term;

// Sequential thresholded ridge regression, each solve by the task's solver: the first refusal that applies, or the report beside the coefficients.
pub fn strlsq(
    task: Task,
    theta: &[f64],
    target: &[f64],
    coeffs: &mut [f64],
    workspace: &mut [f64],
) -> Result<Report, Refusal>
    ensures { FitCall task theta.now target.now coeffs.old coeffs.new workspace.old workspace.new result }
{
    fit_sizes(
        task,
        theta.len(),
        target.len(),
        coeffs.len(),
        workspace.len(),
    )?;
    let given = Given {
        task,
        theta,
        target,
    };
    let watched = fit_ready(given, Term(0), coeffs, workspace);
    Ok(report(given, watched, coeffs))
}
