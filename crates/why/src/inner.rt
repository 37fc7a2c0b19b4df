// The refusals of the question why, and the cause of the term that a fit watched.
ghost use Rattle.std.specs.Prelude.{◌≡◌};
ghost use Rattle.rule.specs.Fits.{keeps};
ghost use Rattle.why.specs.Cause.{by_value, undropped, caused};
ghost use Rattle.why.specs.Sizes.{low_threshold, asks, why_sizes};

use crate::Cause;
use coeffs::inner::kept;
use refusal::{Answer, Refusal};
use rule::inner::{lengths, limits};
use rule::{Setup, Stop, Task};
use strlsq::inner::Watched;
use support::Term;

// 12: the threshold is not above zero, and a NaN is not.
#[tactic(auto, unfolding(crate::specs::Sizes::low_threshold))]
pub fn low_threshold(setup: Setup) -> Answer
    ensures { result ≡ low_threshold setup }
{
    if setup.threshold > 0.0 {
        return Ok(());
    }
    Err(Refusal::LowThreshold)
}

// 12, then 13.
#[tactic(auto, using(refusal::specs::Ladder::ladder), unfolding(crate::specs::Sizes::asks))]
fn asks(task: Task, term_idx: Term) -> Answer
    ensures { result ≡ asks task term_idx.0 }
{
    low_threshold(task.setup)?;
    if term_idx.0 < task.cols {
        return Ok(());
    }
    Err(Refusal::NoSuchTerm)
}

// The limits, then 12 and 13, then the lengths.
#[tactic(auto, using(rule::specs::Sizes::limits_hold), unfolding(crate::specs::Sizes::why_sizes))]
pub fn why_sizes(
    task: Task,
    term_idx: Term,
    theta: usize,
    target: usize,
    coeffs: usize,
    space: usize,
) -> Answer
    ensures { result ≡ why_sizes task term_idx.0 theta target coeffs space }
{
    limits(task, 64, 4096)?;
    asks(task, term_idx)?;
    lengths(task, theta, target, coeffs, space)
}

// By its last value, before the last pass.
#[tactic(auto, unfolding(crate::specs::Cause::by_value))]
fn by_value(c: f64, setup: Setup) -> Cause
    ensures { result ≡ by_value (keeps setup 0) c }
{
    if kept(c, setup) {
        return Cause::Kept;
    }
    if c.is_nan() {
        return Cause::LeftNan;
    }
    Cause::Zeroed(c)
}

// A term that no look dropped: by how the fit ended, and by its last value.
#[tactic(auto, unfolding(crate::specs::Cause::undropped))]
fn undropped(watched: Watched, setup: Setup) -> Cause
    ensures { result ≡ undropped (keeps setup 0) watched.stop watched.refits watched.last }
{
    match watched.stop {
        Stop::NoData => Cause::NoData,
        Stop::FirstRefused(_) => Cause::FirstRefused,
        Stop::RefitRefused(_) => Cause::Cleared(watched.refits),
        Stop::Empty | Stop::Settled | Stop::OutOfRounds => by_value(watched.last, setup),
    }
}

// The cause of the term that a fit watched: by the look that dropped it, if one did, and else by how the fit ended.
#[tactic(auto, unfolding(crate::specs::Cause::caused))]
pub fn cause_of(watched: Watched, setup: Setup) -> Cause
    ensures { result ≡ caused (keeps setup 0) watched.drop watched.stop watched.refits watched.last }
{
    match watched.drop {
        None => undropped(watched, setup),
        Some(look) => Cause::Dropped(look.refit, look.value),
    }
}
