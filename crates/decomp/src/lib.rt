// Householder QR: the public call.
#![tactic(auto)]

mod ready;

ghost use Rattle.std.specs.Prelude.{◌≡◌};
ghost use Rattle.decomp.specs.Calls.{QrCall, qr_sizes};

use crate::ready::qr_ready;
use refusal::{Answer, Refusal};

// The first refusal that applies to m rows, n columns and these lengths.
#[tactic(auto, using(refusal::specs::Ladder::ladder), unfolding(crate::specs::Calls::qr_sizes))]
fn qr_sizes(m: usize, n: usize, matrix: usize, data: usize, betas: usize, space: usize) -> Answer
    ensures { result ≡ qr_sizes m n matrix «data» betas space }
{
    if n > 64 {
        return Err(Refusal::ManyColumns);
    }
    if m > 4160 {
        return Err(Refusal::ManyRows);
    }
    if matrix != m * n {
        return Err(Refusal::MatrixLength);
    }
    if data != m * n {
        return Err(Refusal::OutputLength);
    }
    if betas != n {
        return Err(Refusal::OutputLength);
    }
    if m < n {
        return Err(Refusal::FewRows);
    }
    if space < m {
        return Err(Refusal::WorkspaceShort);
    }
    Ok(())
}

// QR of the m by n matrix `a` into `data` and `betas`; the workspace has at least m numbers.
pub fn qr(
    a: &[f64],
    m: usize,
    n: usize,
    data: &mut [f64],
    betas: &mut [f64],
    workspace: &mut [f64],
) -> Answer
    ensures { QrCall a.now m n «data».old «data».new betas.old betas.new workspace.old workspace.new result }
{
    qr_sizes(m, n, a.len(), data.len(), betas.len(), workspace.len())?;
    qr_ready(a, m, n, data, betas, workspace);
    Ok(())
}
