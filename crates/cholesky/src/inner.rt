// Cholesky: the factor, column by column, then forward and back substitution.
ghost use Rattle.std.specs.Prelude.{◌≡◌, ◌+◌, ◌*◌, ◌<◌, length};
ghost use Rattle.steps.specs.Num.{times, at, cell};
ghost use Rattle.steps.specs.Sums.{less_sum};
ghost use Rattle.refusal.specs.Answers.{told};
ghost use Rattle.cholesky.specs.Cholesky.{scale, reduced, chol_below, chol_column, chol_factor, chol_forward, chol_back, cholesky};

use float64::{abs, greater, sqrt};
use refusal::Solved;
use slices::inner::{Square, put};

// a(i,j) less the products of rows i and j in the columns before j.
fn row_less(a: Square, i: usize, j: usize) -> f64
    requires { (i < a.n) × (j < a.n) }
    ensures { result ≡ reduced a.entry.n a.entry.numbers.now i j }
{
    let mut s = a.at(i, j);
    for k in 0..j {
        s = s - a.at(i, k) * a.at(j, k);
    }
    s
}

// The largest of 1 and the |diagonal| entries.
fn chol_scale(a: Square) -> f64
    ensures { result ≡ scale a.entry.n a.entry.numbers.now }
{
    let mut s = 1.0;
    for k in 0..a.n {
        s = greater(s, abs(a.at(k, k)));
    }
    s
}

// The entries of column j below its diagonal, whose root is d.
fn chol_below(a: &mut [f64], n: usize, j: usize, d: f64)
    requires { (length a.old ≡ n * n) × (j < n) }
    ensures { a.new ≡ chol_below n j d a.old }
{
    for i in j + 1..n {
        let s = row_less(Square { n, numbers: a }, i, j);
        put(a, n, i, j, s / d);
    }
}

// Column j of the factor, refused where its diagonal is at most the bound.
fn chol_column(a: &mut [f64], n: usize, bound: f64, j: usize) -> Solved
    requires { (length a.old ≡ n * n) × (j < n) }
    ensures { told result a.new ≡ chol_column n bound j a.old }
{
    let s = row_less(Square { n, numbers: a }, j, j);
    if s <= bound {
        return Err(j);
    }
    let d = sqrt(s);
    put(a, n, j, j, d);
    chol_below(a, n, j, d);
    Ok(())
}

// The factor, on and below the diagonal.
pub fn cholesky_factor(a: &mut [f64], n: usize) -> Solved
    requires { length a.old ≡ n * n }
    ensures { told result a.new ≡ chol_factor n a.old }
{
    let bound = 1e-14 * chol_scale(Square { n, numbers: a });
    for j in 0..n {
        chol_column(a, n, bound, j)?;
    }
    Ok(())
}

// b(i) less the products of column i below the diagonal.
fn column_sum(l: Square, b: &[f64], i: usize) -> f64
    requires { (length b.now ≡ l.n) × (i < l.n) }
    ensures { result ≡ less_sum (at b.now i) (i + 1) l.entry.n (λ k. times (cell l.entry.n l.entry.numbers.now k i) (at b.now k)) }
{
    let mut s = b[i];
    for k in i + 1..l.n {
        s = s - l.at(k, i) * b[k];
    }
    s
}

// Forward substitution.
fn chol_forward(l: Square, b: &mut [f64])
    requires { length b.old ≡ l.n }
    ensures { b.new ≡ chol_forward l.entry.n l.entry.numbers.now b.old }
{
    for i in 0..l.n {
        let s = l.row_sum(b, i, 0, i);
        b[i] = s / l.at(i, i);
    }
}

// Back substitution.
fn chol_back(l: Square, b: &mut [f64])
    requires { length b.old ≡ l.n }
    ensures { b.new ≡ chol_back l.entry.n l.entry.numbers.now b.old }
{
    for i in (0..l.n).rev() {
        let rest = column_sum(l, b, i);
        b[i] = rest / l.at(i, i);
    }
}

// a becomes the factor, b the solution; a refusal leaves b as it was.
pub fn cholesky(a: &mut [f64], b: &mut [f64], n: usize) -> Solved
    requires { (length a.old ≡ n * n) × (length b.old ≡ n) }
    ensures { told result (a.new, b.new) ≡ cholesky n a.old b.old }
{
    cholesky_factor(a, n)?;
    let l = Square { n, numbers: a };
    chol_forward(l, b);
    chol_back(l, b);
    Ok(())
}
