// Why a term of a fit was kept or not.
#![tactic(auto)]

pub mod inner;

ghost use Rattle.std.specs.Prelude.{◌≡◌};
ghost use Rattle.why.specs.Codes.{cause_code, cause_refit, cause_value};
ghost use Rattle.why.specs.Calls.{WhyCall};

use crate::inner::{cause_of, why_sizes};
use refusal::Refusal;
use rule::{Given, Task};
use strlsq::inner::fit_ready;
use support::Term;

// The causes, in code order 00 to 06.
#[derive(Clone, Copy, Debug, PartialEq)]
pub enum Cause {
    NoData,
    FirstRefused,
    Kept,
    // at the look before the refit of this number, with this coefficient
    Dropped(usize, f64),
    // when the refit of this number was refused
    Cleared(usize),
    // by the last pass, with this value
    Zeroed(f64),
    LeftNan,
}

// The code of a cause in document 02.
pub fn cause_code(c: Cause) -> u64
    ensures { result ≡ cause_code c }
{
    match c {
        Cause::NoData => 0,
        Cause::FirstRefused => 1,
        Cause::Kept => 2,
        Cause::Dropped(_, _) => 3,
        Cause::Cleared(_) => 4,
        Cause::Zeroed(_) => 5,
        Cause::LeftNan => 6,
    }
}

// The refit number of a cause; 0 where it has none.
pub fn cause_refit(c: Cause) -> usize
    ensures { result ≡ cause_refit c }
{
    match c {
        Cause::Dropped(r, _) | Cause::Cleared(r) => r,
        _ => 0,
    }
}

// The coefficient of a cause; +0.0 where it has none.
pub fn cause_value(c: Cause) -> f64
    ensures { result ≡ cause_value c }
{
    match c {
        Cause::Dropped(_, x) | Cause::Zeroed(x) => x,
        _ => 0.0,
    }
}

// Why a term of the task's fit was kept or not, or the first refusal that applies. Coefficients and workspace are left as the fit leaves them.
pub fn why(
    task: Task,
    theta: &[f64],
    target: &[f64],
    term_idx: Term,
    coeffs: &mut [f64],
    workspace: &mut [f64],
) -> Result<Cause, Refusal>
    ensures { WhyCall task term_idx.0 theta.now target.now
        coeffs.old coeffs.new workspace.old workspace.new result }
{
    why_sizes(
        task,
        term_idx,
        theta.len(),
        target.len(),
        coeffs.len(),
        workspace.len(),
    )?;
    let given = Given {
        task,
        theta,
        target,
    };
    let watched = fit_ready(given, term_idx, coeffs, workspace);
    Ok(cause_of(watched, task.setup))
}
