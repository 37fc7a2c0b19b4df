// The solvers: the public calls.
#![tactic(auto)]

mod ready;
mod sizes;

ghost use Rattle.solve.specs.Calls.{CholeskyCall, InvertCall, LeastCall, LuCall, NormalCall};

use crate::ready::{invert_ready, least_ready, normal_ready};
use cholesky::inner::cholesky;
use lu::inner::lu;
use refusal::{Answer, Refusal};

// Solves by Cholesky: a becomes the factor, b the solution.
pub fn solve_spd_cholesky(a: &mut [f64], b: &mut [f64], n: usize) -> Answer
    ensures { CholeskyCall a.old b.old n a.new b.new result }
{
    sizes::square_sizes(n, a.len(), b.len())?;
    cholesky(a, b, n).map_err(Refusal::NotSpd)
}

// Solves by LU: a becomes the factors, b the solution.
pub fn solve_lu(a: &mut [f64], b: &mut [f64], n: usize) -> Answer
    ensures { LuCall a.old b.old n a.new b.new result }
{
    sizes::square_sizes(n, a.len(), b.len())?;
    lu(a, b, n).map_err(Refusal::SmallPivot)
}

// Solves by Cholesky, or by LU where that refuses: b becomes the solution, a stays, and the workspace is cleared.
pub fn solve_normal_equations(a: &[f64], b: &mut [f64], n: usize, workspace: &mut [f64]) -> Answer
    ensures { NormalCall a.now b.old n b.new workspace.old workspace.new result }
{
    sizes::normal_sizes(n, a.len(), b.len(), workspace.len())?;
    normal_ready(a, b, n, workspace).map_err(Refusal::SmallPivot)
}

// The inverse of a positive definite matrix by Cholesky, into `out`: a stays, and the workspace is cleared.
pub fn invert_spd(a: &[f64], n: usize, out: &mut [f64], workspace: &mut [f64]) -> Answer
    ensures { InvertCall a.now n out.old out.new workspace.old workspace.new result }
{
    sizes::invert_sizes(n, a.len(), out.len(), workspace.len())?;
    invert_ready(a, n, out, workspace).map_err(Refusal::NotSpd)
}

// The least squares solution of the m by n matrix `a` and the right-hand side `b`, into `out`.
pub fn solve_least_squares(
    a: &[f64],
    b: &[f64],
    m: usize,
    n: usize,
    out: &mut [f64],
    workspace: &mut [f64],
) -> Answer
    ensures { LeastCall a.now b.now m n out.old out.new workspace.old workspace.new result }
{
    sizes::least_sizes(m, n, a.len(), b.len(), out.len(), workspace.len())?;
    least_ready(a, b, m, n, out, workspace)
}
