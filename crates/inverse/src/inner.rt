// The inverse by Cholesky's factor. Each function may require what its caller tested.
ghost use Rattle.std.specs.Prelude.{◌≡◌, ◌*◌, length};
ghost use Rattle.refusal.specs.Answers.{told};
ghost use Rattle.inverse.specs.Inverse.{unit, inverse, invert};
ghost use Rattle.inverse.specs.ByColumns.{ByColumns};

use crate::rows::{back_rows, forward_rows};
use cholesky::inner::cholesky_factor;
use refusal::Solved;
use slices::inner::{Square, copy, put};

// All unit columns, side by side.
fn units(x: &mut [f64], n: usize)
    requires { length x.old ≡ n * n }
    ensures { ByColumns n (unit n) x.new }
{
    x.fill(0.0);
    for i in 0..n {
        put(x, n, i, i, 1.0);
    }
}

// The inverse of the matrix whose factor is l.
fn inverse_of(l: Square, out: &mut [f64])
    requires { length out.old ≡ l.n * l.n }
    ensures { out.new ≡ inverse l.entry.n l.entry.numbers.now }
{
    units(out, l.n);
    forward_rows(l, out);
    back_rows(l, out);
}

// The inverse of a into `out`; the factor is made in ws, of as many numbers as a. A refusal leaves `out` as it was.
pub fn invert(a: Square, out: &mut [f64], ws: &mut [f64]) -> Solved
    requires { (length out.old ≡ a.n * a.n) × (length ws.old ≡ a.n * a.n) }
    ensures { told result out.new ≡ invert a.entry.n a.entry.numbers.now out.old }
{
    copy(a.numbers, ws);
    cholesky_factor(ws, a.n)?;
    inverse_of(
        Square {
            n: a.n,
            numbers: ws,
        },
        out,
    );
    Ok(())
}
