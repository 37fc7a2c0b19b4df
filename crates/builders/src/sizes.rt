// The first refusal that applies to a call, by its sizes and the lengths of its slices.
#![tactic(auto, using(refusal::specs::Ladder::ladder), unfolding(crate::specs::Calls::matrix_sizes, crate::specs::Calls::jtj_sizes, crate::specs::Calls::jtr_sizes))]

ghost use Rattle.std.specs.Prelude.{◌≡◌};
ghost use Rattle.builders.specs.Calls.{matrix_sizes, jtj_sizes, jtr_sizes};

use refusal::{Answer, Refusal};

// A matrix.
fn matrix_sizes(n_rows: usize, n_params: usize, matrix: usize) -> Answer
    ensures { result ≡ matrix_sizes n_rows n_params matrix }
{
    if n_params > 64 {
        return Err(Refusal::ManyColumns);
    }
    if n_rows > 4096 {
        return Err(Refusal::ManyRows);
    }
    if matrix != n_rows * n_params {
        return Err(Refusal::MatrixLength);
    }
    Ok(())
}

// A matrix and the output of `jtj`.
pub fn jtj_sizes(n_rows: usize, n_params: usize, matrix: usize, out: usize) -> Answer
    ensures { result ≡ jtj_sizes n_rows n_params matrix out }
{
    matrix_sizes(n_rows, n_params, matrix)?;
    if out != n_params * n_params {
        return Err(Refusal::OutputLength);
    }
    Ok(())
}

// A matrix, the numbers beside its rows and the output of `jtr`.
pub fn jtr_sizes(n_rows: usize, n_params: usize, matrix: usize, target: usize, out: usize) -> Answer
    ensures { result ≡ jtr_sizes n_rows n_params matrix target out }
{
    matrix_sizes(n_rows, n_params, matrix)?;
    if target != n_rows {
        return Err(Refusal::TargetLength);
    }
    if out != n_params {
        return Err(Refusal::OutputLength);
    }
    Ok(())
}
