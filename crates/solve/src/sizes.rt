// The first refusal that applies to a solver, by its sizes and the lengths of its slices.
#![tactic(auto, using(refusal::specs::Ladder::ladder), unfolding(crate::specs::Calls::square_sizes, crate::specs::Calls::normal_sizes, crate::specs::Calls::invert_sizes, crate::specs::Calls::least_need, crate::specs::Calls::least_sizes))]

ghost use Rattle.std.specs.Prelude.{◌≡◌, ◌≤◌};
ghost use Rattle.solve.specs.Calls.{square_sizes, normal_sizes, invert_sizes, least_need, least_sizes};

use refusal::{Answer, Refusal};

// A square matrix of n columns and its right-hand side.
pub fn square_sizes(n: usize, matrix: usize, right: usize) -> Answer
    ensures { result ≡ square_sizes n matrix right }
{
    if n > 64 {
        return Err(Refusal::ManyColumns);
    }
    if matrix != n * n {
        return Err(Refusal::MatrixLength);
    }
    if right != n {
        return Err(Refusal::TargetLength);
    }
    Ok(())
}

// The same with a workspace.
pub fn normal_sizes(n: usize, matrix: usize, right: usize, space: usize) -> Answer
    ensures { result ≡ normal_sizes n matrix right space }
{
    square_sizes(n, matrix, right)?;
    if space < n * n {
        return Err(Refusal::WorkspaceShort);
    }
    Ok(())
}

// A square matrix of n columns, its inverse and the workspace.
pub fn invert_sizes(n: usize, matrix: usize, out: usize, space: usize) -> Answer
    ensures { result ≡ invert_sizes n matrix out space }
{
    if n > 64 {
        return Err(Refusal::ManyColumns);
    }
    if matrix != n * n {
        return Err(Refusal::MatrixLength);
    }
    if out != n * n {
        return Err(Refusal::OutputLength);
    }
    if space < n * n + n {
        return Err(Refusal::WorkspaceShort);
    }
    Ok(())
}

// The workspace of least squares, in numbers.
pub fn least_need(m: usize, n: usize) -> usize
    requires { (m ≤ 4160) × (n ≤ 64) }
    ensures { result ≡ least_need m n }
{
    m * n + 2 * m + 2 * n
}

// A matrix of m rows and n columns, its right-hand side, its output and its workspace.
pub fn least_sizes(
    m: usize,
    n: usize,
    matrix: usize,
    right: usize,
    out: usize,
    space: usize,
) -> Answer
    ensures { result ≡ least_sizes m n matrix right out space }
{
    if n > 64 {
        return Err(Refusal::ManyColumns);
    }
    if m > 4160 {
        return Err(Refusal::ManyRows);
    }
    if matrix != m * n {
        return Err(Refusal::MatrixLength);
    }
    if right != m {
        return Err(Refusal::TargetLength);
    }
    if out != n {
        return Err(Refusal::OutputLength);
    }
    if m < n {
        return Err(Refusal::FewRows);
    }
    if space < least_need(m, n) {
        return Err(Refusal::WorkspaceShort);
    }
    Ok(())
}
