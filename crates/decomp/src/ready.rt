// The work of QR, behind sizes that nothing refuses.
ghost use Rattle.std.specs.Prelude.{◌≡◌, ◌≤◌, length};
ghost use Rattle.steps.specs.Space.{cleared};
ghost use Rattle.householder.specs.Qr.{after};
ghost use Rattle.householder.specs.Qr as Q;
ghost use Rattle.decomp.specs.Sizes.{QrSized};

use householder::inner::factor;
use slices::inner::{clear, copy};

// QR into `data` and `betas`; m numbers of the workspace are cleared.
pub fn qr_ready(
    a: &[f64],
    m: usize,
    n: usize,
    data: &mut [f64],
    betas: &mut [f64],
    workspace: &mut [f64],
)
    requires { (QrSized m n (length a.now) (length «data».old) (length betas.old)) × (m ≤ length workspace.old) }
    ensures { («data».new ≡ after m n a.now n) × (betas.new ≡ Q.betas m n a.now) × (workspace.new ≡ cleared m workspace.old) }
{
    copy(a, data);
    factor(data, betas, m, n);
    clear(workspace, m);
}
