// The pair sums on and above the diagonal go to the other half.
ghost use Rattle.std.specs.Prelude.{◌≡◌, ◌+◌, ◌*◌, ◌<◌, length};
ghost use Rattle.steps.specs.Num.{cell as cell_of};
ghost use Rattle.steps.specs.Wrote.{Wrote};
ghost use Rattle.steps.specs.Rows.{Rows};
ghost use Rattle.sums.specs.Pages.{upper};

use slices::inner::{cell, put};

// The sums left of the diagonal in row p become those above it in column p.
fn mirror_row(out: &mut [f64], n_cols: usize, p: usize)
    requires { (length out.old ≡ n_cols * n_cols) × (p < n_cols) }
    ensures { Wrote (λ q. p * n_cols + q) 0 p (λ q. cell_of n_cols out.old q p) out.old out.new }
{
    for q in 0..p {
        let x = cell(out, n_cols, q, p);
        put(out, n_cols, p, q, x);
    }
}

// In every row: both halves then hold the sums.
pub fn mirror(out: &mut [f64], n_cols: usize)
    requires { length out.old ≡ n_cols * n_cols }
    ensures { Rows n_cols n_cols (upper n_cols out.old) out.old n_cols out.new }
{
    for p in 0..n_cols {
        mirror_row(out, n_cols, p);
    }
}
