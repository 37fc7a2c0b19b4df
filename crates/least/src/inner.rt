// Least squares in place: of the right-hand side the first numbers, one a column, are the values afterwards.
ghost use Rattle.std.specs.Prelude.{◌≡◌, ◌*◌, ◌<◌, length, take, drop};
ghost use Rattle.refusal.specs.Answers.{told};
ghost use Rattle.transpose.specs.Transpose.{Packed};
ghost use Rattle.householder.specs.Steps.{Whole};
ghost use Rattle.least.specs.Least.{above, back_column, back, values, least};

use float64::abs;
use householder::inner::factor;
use refusal::Solved;
use slices::inner::copy;
use transpose::inner::Factor;

// The entries above row j lose their part of column j.
fn lessen_above(f: Factor, x: &mut [f64], j: usize)
    requires { (length x.old ≡ f.rows) × (j < f.cols) }
    ensures { x.new ≡ above f.entry.cols f.entry.numbers.now j x.old }
{
    for i in 0..j {
        x[i] = x[i] - f.at(i, j) * x[j];
    }
}

// Column j: its entry is divided by the diagonal, which is refused where it is small, then the entries above are updated.
fn back_column(f: Factor, x: &mut [f64], j: usize) -> Solved
    requires { (length x.old ≡ f.rows) × (j < f.cols) }
    ensures { told result x.new ≡ back_column f.entry.cols f.entry.numbers.now j x.old }
{
    let r = f.at(j, j);
    if abs(r) < 1e-15 {
        return Err(j);
    }
    x[j] = x[j] / r;
    lessen_above(f, x, j);
    Ok(())
}

// Back substitution from the last column.
fn back_substitute(f: Factor, x: &mut [f64]) -> Solved
    requires { length x.old ≡ f.rows }
    ensures { told result x.new ≡ back f.entry.cols f.entry.numbers.now x.old }
{
    for j in (0..f.cols).rev() {
        back_column(f, x, j)?;
    }
    Ok(())
}

// QR, Q-transpose and back substitution of the matrix a, which has a row for each number of b and a column for each of the betas.
fn least_with(a: &mut [f64], b: &mut [f64], betas: &mut [f64]) -> Solved
    requires { Whole (length b.old) (length betas.old) a.old }
    ensures { values (length betas.old) (told result b.new) ≡ least (length b.old) (length betas.old) a.old b.old }
{
    let rows = b.len();
    let cols = betas.len();
    factor(a, betas, rows, cols);
    let f = Factor {
        rows,
        cols,
        numbers: a,
    };
    f.apply_qt(b, betas);
    back_substitute(f, b)
}

// The least squares solution of what stands in the slice: the matrix, then the right-hand side.
pub fn least_packed(s: &mut [f64], m: usize, n: usize) -> Solved
    requires { Packed m n s.old }
    ensures { values n (told result (drop (m * n) s.new)) ≡ least m n (take (m * n) s.old) (drop (m * n) s.old) }
{
    let mut betas = [0.0; 64];
    let (a, b) = s.split_at_mut(m * n);
    least_with(a, b, &mut betas[..n])
}

// The same of a and b, which are first copied there.
pub fn least_of(a: &[f64], b: &[f64], s: &mut [f64], m: usize, n: usize) -> Solved
    requires { (Packed m n s.old) × (length a.now ≡ m * n) × (length b.now ≡ m) }
    ensures { values n (told result (drop (m * n) s.new)) ≡ least m n a.now b.now }
{
    let (matrix, right) = s.split_at_mut(m * n);
    copy(a, matrix);
    copy(b, right);
    least_packed(s, m, n)
}
