// The normal equations: Cholesky on a copy; on its refusal LU on a fresh copy and the untouched b.
ghost use Rattle.std.specs.Prelude.{◌≡◌, ◌*◌, length};
ghost use Rattle.refusal.specs.Answers.{told};
ghost use Rattle.normal.specs.Normal.{normal};

use cholesky::inner::cholesky;
use lu::inner::lu;
use refusal::Solved;
use slices::inner::{Square, copy};

// The copy is made in ws, of as many numbers as a.
pub fn normal_equations(a: Square, b: &mut [f64], ws: &mut [f64]) -> Solved
    requires { (length b.old ≡ a.n) × (length ws.old ≡ a.n * a.n) }
    ensures { told result b.new ≡ normal a.entry.n a.entry.numbers.now b.old }
{
    copy(a.numbers, ws);
    if cholesky(ws, b, a.n).is_err() {
        copy(a.numbers, ws);
        return lu(ws, b, a.n);
    }
    Ok(())
}
