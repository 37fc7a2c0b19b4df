// The columns of QR in place. Each function may require what its caller tested.
ghost use Rattle.std.specs.Prelude.{◌≡◌, ◌+◌, ◌*◌, ◌≤◌, ◌<◌, length};
ghost use Rattle.steps.specs.Num.{plus, less, times, at, cell};
ghost use Rattle.steps.specs.Wrote.{Wrote};
ghost use Rattle.transpose.specs.Led.{led, along};
ghost use Rattle.householder.specs.Qr.{sign, reflect, column, after, betas};
ghost use Rattle.householder.specs.Steps.{Shape, Whole, Sums};

use float64::sqrt;
use slices::inner::{cell, few, put};
use transpose::inner::led_at;

// +1 if x is at least 0.0, else -1.
fn sign_of(x: f64) -> f64
    ensures { result ≡ sign x }
{
    if x >= 0.0 { 1.0 } else { -1.0 }
}

// The squares of column j from the diagonal down, whose leading entry is x, summed.
fn squares(a: &[f64], m: usize, n: usize, j: usize, x: f64) -> f64
    requires { Shape m n j a.now }
    ensures { result ≡ along j m (led x (cell n a.now) j) (led x (cell n a.now) j) }
{
    let mut s = -0.0;
    for i in j..m {
        let v = led_at(a, n, i, j, x);
        s = s + v * v;
    }
    s
}

// The sums of columns j to n gain a row, the one that starts at `from`, times x.
fn add_row(w: &mut [f64], a: &[f64], from: usize, j: usize, n: usize, x: f64)
    requires { (j ≤ n) × (n ≤ length w.old) × (from + n ≤ length a.now) }
    ensures { Wrote (λ c. c) j n (λ c. plus (at w.old c) (times x (at a.now (from + c)))) w.old w.new }
{
    for c in j..n {
        w[c] = w[c] + x * a[from + c];
    }
}

// The sums of columns j to n, side by side, gain the rows from j down.
fn column_sums(w: &mut [f64], a: &[f64], m: usize, n: usize, j: usize, x: f64)
    requires { (Shape m n j a.now) × (n ≤ length w.old) × (Sums j n j x a.now w.old) }
    ensures { Sums m n j x a.now w.new }
{
    for i in j..m {
        let v = led_at(a, n, i, j, x);
        add_row(w, a, i * n, j, n, v);
    }
}

// The sums of columns j to n times x.
fn scale(w: &mut [f64], j: usize, n: usize, x: f64)
    requires { (j ≤ n) × (n ≤ length w.old) }
    ensures { Wrote (λ c. c) j n (λ c. times x (at w.old c)) w.old w.new }
{
    for c in j..n {
        w[c] = x * w[c];
    }
}

// The row that starts at `from` loses t times x, from column lo on.
fn less_row(a: &mut [f64], from: usize, lo: usize, n: usize, t: &[f64], x: f64)
    requires { (lo ≤ n) × (n ≤ length t.now) × (from + n ≤ length a.old) }
    ensures { Wrote (λ c. from + c) lo n (λ c. less (at a.old (from + c)) (times (at t.now c) x)) a.old a.new }
{
    for c in lo..n {
        a[from + c] = a[from + c] - t[c] * x;
    }
}

// The columns from j on lose their shares t, and column j is stored.
fn update(a: &mut [f64], m: usize, n: usize, j: usize, x: f64, t: &[f64])
    requires { (Shape m n j a.old) × (n ≤ length t.now) }
    ensures { a.new ≡ reflect m n j x (at t.now) a.old }
{
    less_row(a, j * n, j, n, t, x);
    for i in j + 1..m {
        let v = cell(a, n, i, j);
        less_row(a, i * n, j + 1, n, t, v);
        put(a, n, i, j, v / x);
    }
}

// Column j of QR, in place. Gives the stored beta, +0.0 for a column that is skipped.
pub fn qr_column(a: &mut [f64], m: usize, n: usize, j: usize) -> f64
    requires { Shape m n j a.old }
    ensures { (a.new, result) ≡ column m n j a.old }
{
    let lead = cell(a, n, j, j);
    let norm = sqrt(squares(a, m, n, j, lead));
    if norm < 1e-15 {
        return 0.0;
    }
    let x = lead + sign_of(lead) * norm;
    let q = squares(a, m, n, j, x);
    if q < 1e-30 {
        return 0.0;
    }
    let beta = 2.0 / q;
    let mut w = [-0.0; 64];
    column_sums(&mut w, a, m, n, j, x);
    scale(&mut w, j, n, beta);
    update(a, m, n, j, x, &w);
    beta * x * x
}

// All columns in turn.
fn each_column(a: &mut [f64], b: &mut [f64], m: usize, n: usize)
    requires { (Whole m n a.old) × (length b.old ≡ n) }
    ensures { (a.new ≡ after m n a.old n) × (b.new ≡ betas m n a.old) }
{
    for (j, beta) in b.iter_mut().enumerate() {
        *beta = qr_column(a, m, n, j);
    }
}

// The factor, its columns packed, and their betas.
pub fn factor(a: &mut [f64], b: &mut [f64], m: usize, n: usize)
    requires { (Whole m n a.old) × (length b.old ≡ n) }
    ensures { (a.new ≡ after m n a.old n) × (b.new ≡ betas m n a.old) }
{
    each_column(a, b, m, few(n));
}
