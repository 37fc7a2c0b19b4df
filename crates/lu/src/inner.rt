// LU with the pivot's row brought up, then forward and back substitution.
ghost use Rattle.std.specs.Prelude.{◌≡◌, ◌*◌, ◌<◌, length};
ghost use Rattle.refusal.specs.Answers.{told};
ghost use Rattle.lu.specs.Lu.{Pivots, swap_rows, lu_swap, less_row, eliminated, lu_column, lu_factor, lu_forward, lu_back, lu};

use float64::abs;
use refusal::Solved;
use slices::inner::{Square, cell, put};

// The pivot's magnitude and its row.
#[derive(Clone, Copy)]
struct Pivot {
    size: f64,
    row: usize,
}

// The first row of greatest magnitude from the diagonal down.
fn find_pivot(a: Square, k: usize) -> Pivot
    requires { k < a.n }
    ensures { Pivots a.entry.n a.entry.numbers.now k result.row result.size }
{
    let mut size = abs(a.at(k, k));
    let mut row = k;
    for i in k + 1..a.n {
        let v = abs(a.at(i, k));
        if size < v {
            size = v;
            row = i;
        }
    }
    Pivot { size, row }
}

// Rows k and r change places whole.
fn swap_rows(a: &mut [f64], n: usize, k: usize, r: usize)
    requires { (length a.old ≡ n * n) × (k < n) × (r < n) }
    ensures { a.new ≡ swap_rows n k r a.old }
{
    for j in 0..n {
        a.swap(k * n + j, r * n + j);
    }
}

// Rows k and r change places, and b's entries with them.
fn swap_both(a: &mut [f64], b: &mut [f64], n: usize, k: usize, r: usize)
    requires { (length a.old ≡ n * n) × (length b.old ≡ n) × (k < n) × (r < n) }
    ensures { (a.new, b.new) ≡ lu_swap n k r (a.old, b.old) }
{
    if r != k {
        swap_rows(a, n, k, r);
        b.swap(k, r);
    }
}

// The rest of row i less factor times row k.
fn less_row(a: &mut [f64], n: usize, k: usize, i: usize, factor: f64)
    requires { (length a.old ≡ n * n) × (k < n) × (i < n) }
    ensures { a.new ≡ less_row n k i factor a.old }
{
    for j in k + 1..n {
        let v = cell(a, n, i, j) - factor * cell(a, n, k, j);
        put(a, n, i, j, v);
    }
}

// Elimination below row k.
fn eliminate(a: &mut [f64], n: usize, k: usize)
    requires { (length a.old ≡ n * n) × (k < n) }
    ensures { a.new ≡ eliminated n k a.old }
{
    let pivot = cell(a, n, k, k);
    for i in k + 1..n {
        let factor = cell(a, n, i, k) / pivot;
        put(a, n, i, k, factor);
        less_row(a, n, k, i, factor);
    }
}

// Column k: its pivot's row is brought up, then the rows below are eliminated; refused where the pivot is small.
fn lu_column(a: &mut [f64], b: &mut [f64], n: usize, k: usize) -> Solved
    requires { (length a.old ≡ n * n) × (length b.old ≡ n) × (k < n) }
    ensures { told result (a.new, b.new) ≡ lu_column n k (a.old, b.old) }
{
    let pivot = find_pivot(Square { n, numbers: a }, k);
    if pivot.size < 1e-15 {
        return Err(k);
    }
    swap_both(a, b, n, k, pivot.row);
    eliminate(a, n, k);
    Ok(())
}

// The factors; b's entries move with the rows.
fn lu_factor(a: &mut [f64], b: &mut [f64], n: usize) -> Solved
    requires { (length a.old ≡ n * n) × (length b.old ≡ n) }
    ensures { told result (a.new, b.new) ≡ lu_factor n a.old b.old }
{
    for k in 0..n {
        lu_column(a, b, n, k)?;
    }
    Ok(())
}

// Forward substitution, with ones on the diagonal.
fn lu_forward(a: Square, b: &mut [f64])
    requires { length b.old ≡ a.n }
    ensures { b.new ≡ lu_forward a.entry.n a.entry.numbers.now b.old }
{
    for i in 0..a.n {
        b[i] = a.row_sum(b, i, 0, i);
    }
}

// Back substitution.
fn lu_back(a: Square, b: &mut [f64])
    requires { length b.old ≡ a.n }
    ensures { b.new ≡ lu_back a.entry.n a.entry.numbers.now b.old }
{
    for i in (0..a.n).rev() {
        let s = a.row_sum(b, i, i + 1, a.n);
        b[i] = s / a.at(i, i);
    }
}

// a becomes the factors, b the solution; a refusal leaves both as the steps so far made them.
pub fn lu(a: &mut [f64], b: &mut [f64], n: usize) -> Solved
    requires { (length a.old ≡ n * n) × (length b.old ≡ n) }
    ensures { told result (a.new, b.new) ≡ lu n a.old b.old }
{
    lu_factor(a, b, n)?;
    let factors = Square { n, numbers: a };
    lu_forward(factors, b);
    lu_back(factors, b);
    Ok(())
}
