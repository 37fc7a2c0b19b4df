// Both substitutions of all columns side by side, a row at a time: each column meets the same numbers in the same order as alone. Each function may require what its caller tested.
ghost use Rattle.std.specs.Prelude.{◌≡◌, ◌*◌, ◌<◌, length, set};
ghost use Rattle.steps.specs.Num.{less, times, over, cell};
ghost use Rattle.cholesky.specs.Cholesky.{forward_at, back_at, chol_forward, chol_back};
ghost use Rattle.inverse.specs.ByColumns.{down_column, ByColumns, WithRow};

use slices::inner::Square;

// Row i loses f times row k.
fn less_row(x: &mut [f64], n: usize, i: usize, k: usize, f: f64)
    requires { (length x.old ≡ n * n) × (i < n) × (k < n) }
    ensures { WithRow n i (λ j. less (cell n x.old i j) (times f (cell n x.old k j))) x.old x.new }
{
    let to = i * n;
    let from = k * n;
    for j in 0..n {
        x[to + j] = x[to + j] - f * x[from + j];
    }
}

// Row i over d.
fn over_row(x: &mut [f64], n: usize, i: usize, d: f64)
    requires { (length x.old ≡ n * n) × (i < n) }
    ensures { WithRow n i (λ j. over (cell n x.old i j) d) x.old x.new }
{
    let to = i * n;
    for j in 0..n {
        x[to + j] = x[to + j] / d;
    }
}

// Row i of forward substitution.
fn forward_row(l: Square, x: &mut [f64], i: usize)
    requires { (length x.old ≡ l.n * l.n) × (i < l.n) }
    ensures { ByColumns l.entry.n (λ j. set (down_column l.entry.n x.old j) i (forward_at l.entry.n l.entry.numbers.now i (down_column l.entry.n x.old j))) x.new }
{
    for k in 0..i {
        less_row(x, l.n, i, k, l.at(i, k));
    }
    over_row(x, l.n, i, l.at(i, i));
}

// Row i of back substitution.
fn back_row(l: Square, x: &mut [f64], i: usize)
    requires { (length x.old ≡ l.n * l.n) × (i < l.n) }
    ensures { ByColumns l.entry.n (λ j. set (down_column l.entry.n x.old j) i (back_at l.entry.n l.entry.numbers.now i (down_column l.entry.n x.old j))) x.new }
{
    for k in i + 1..l.n {
        less_row(x, l.n, i, k, l.at(k, i));
    }
    over_row(x, l.n, i, l.at(i, i));
}

// Forward substitution of each column.
pub fn forward_rows(l: Square, x: &mut [f64])
    requires { length x.old ≡ l.n * l.n }
    ensures { ByColumns l.entry.n (λ j. chol_forward l.entry.n l.entry.numbers.now (down_column l.entry.n x.old j)) x.new }
{
    for i in 0..l.n {
        forward_row(l, x, i);
    }
}

// Back substitution of each column.
pub fn back_rows(l: Square, x: &mut [f64])
    requires { length x.old ≡ l.n * l.n }
    ensures { ByColumns l.entry.n (λ j. chol_back l.entry.n l.entry.numbers.now (down_column l.entry.n x.old j)) x.new }
{
    for i in (0..l.n).rev() {
        back_row(l, x, i);
    }
}
