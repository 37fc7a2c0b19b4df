// The first refusal that applies to a fit, for the fits and the exchange.
ghost use Rattle.std.specs.Prelude.{◌≡◌, ◌≤◌};
ghost use Rattle.rule.specs.Sizes.{fit_need, limits, lengths, fit_sizes, Limited};

use crate::{Solver, Task};
use refusal::{Answer, Refusal};

// Columns, rows and rounds within their limits.
#[tactic(auto, using(refusal::specs::Ladder::ladder), unfolding(crate::specs::Sizes::limits))]
pub fn limits(task: Task, cols: usize, rows: usize) -> Answer
    ensures { result ≡ limits cols rows task }
{
    if task.cols > cols {
        return Err(Refusal::ManyColumns);
    }
    if task.rows > rows {
        return Err(Refusal::ManyRows);
    }
    if task.setup.max_iter > 1000 {
        return Err(Refusal::ManyRounds);
    }
    Ok(())
}

// The workspace that a fit needs, in numbers: by the normal equations the same, however they are damped.
#[tactic(auto, unfolding(crate::specs::Sizes::fit_need))]
pub fn needed(solver: Solver, n_rows: usize, n_cols: usize) -> usize
    requires { (n_rows ≤ 4096) × (n_cols ≤ 64) }
    ensures { result ≡ fit_need solver n_rows n_cols }
{
    match solver {
        Solver::Normal | Solver::Marquardt => 3 * (n_cols * n_cols) + 2 * n_cols,
        Solver::Qr => 2 * ((n_rows + n_cols) * n_cols) + 3 * (n_rows + n_cols) + 3 * n_cols,
    }
}

// Theta, target, coefficients and workspace by their lengths.
#[tactic(auto, using(refusal::specs::Ladder::ladder), unfolding(crate::specs::Sizes::lengths))]
pub fn lengths(task: Task, theta: usize, target: usize, coeffs: usize, space: usize) -> Answer
    requires { Limited 64 4096 task }
    ensures { result ≡ lengths task theta target coeffs space }
{
    if theta != task.rows * task.cols {
        return Err(Refusal::MatrixLength);
    }
    if target != task.rows {
        return Err(Refusal::TargetLength);
    }
    if coeffs != task.cols {
        return Err(Refusal::OutputLength);
    }
    if space < needed(task.solver, task.rows, task.cols) {
        return Err(Refusal::WorkspaceShort);
    }
    Ok(())
}

// The limits, then the lengths.
#[tactic(auto, using(crate::specs::Sizes::limits_hold), unfolding(crate::specs::Sizes::fit_sizes))]
pub fn fit_sizes(task: Task, theta: usize, target: usize, coeffs: usize, space: usize) -> Answer
    ensures { result ≡ fit_sizes task theta target coeffs space }
{
    limits(task, 64, 4096)?;
    lengths(task, theta, target, coeffs, space)
}
