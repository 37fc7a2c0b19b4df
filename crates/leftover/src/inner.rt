// The squared error that the kept terms leave, in one walk over the rows: four at a time, so that no sum waits for another's. Columns that are not kept are not read.
pub mod columns;

ghost use Rattle.std.specs.Prelude.{◌≡◌, ◌+◌, ◌*◌, ◌^◌, ◌≤◌, ◌<◌, length};
ghost use Rattle.steps.specs.Num.{plus, less, at};
ghost use Rattle.steps.specs.Sums.{sum};
ghost use Rattle.places.specs.Theta.{entries, by_rows};
ghost use Rattle.leftover.specs.Error.{square, products, leftover, squared_error};
ghost use Rattle.leftover.specs.Fits.{kept_entries, kept_coeffs, fit_squares};

use crate::fit::Fit;
use crate::inner::columns::walk_columns;
use places::inner::{at_place, at_term, kept_columns, term_of};
use places::{Layout, Theta};
use support::{Col, Support, Term};

// The coefficient of a term, never of a reduced place.
pub fn coeff_of(coeffs: &[f64], term_idx: Term) -> f64
    requires { term_idx.0 < length coeffs.now }
    ensures { result ≡ at coeffs.now term_idx.0 }
{
    coeffs[term_idx.0]
}

// A row more: the target less the row's products, squared.
pub fn add_square(error: f64, target: f64, sum: f64) -> f64
    ensures { result ≡ plus error (square (less target sum)) }
{
    let d = target - sum;
    error + d * d
}

// The products of row i over the kept terms, rising.
fn row_products(fit: Fit<'_>, i: usize) -> f64
    requires { i < fit.kept.theta.rows }
    ensures { result ≡ products (length fit.entry.kept.terms.now) (kept_entries by_rows fit.entry i) (kept_coeffs fit.entry) }
{
    let kept = fit.kept;
    let mut s = 0.0;
    for p in 0..kept.terms.len() {
        let col = Col(p);
        let x = at_place(kept, i, col);
        s += x * coeff_of(fit.coeffs, term_of(kept.terms, col));
    }
    s
}

// Four rows more, from row i on.
fn add_four(fit: Fit<'_>, error: f64, i: usize) -> f64
    requires { i + 4 ≤ fit.kept.theta.rows }
    ensures { result ≡ sum error 0 4 (λ h. square (leftover (length fit.entry.kept.terms.now) (kept_entries by_rows fit.entry) (at fit.entry.target.now) (kept_coeffs fit.entry) (i + h))) }
{
    let theta = fit.kept.theta.numbers;
    let n_cols = fit.kept.theta.cols;
    let target = fit.target;
    let mut a = 0.0;
    let mut b = 0.0;
    let mut c = 0.0;
    let mut d = 0.0;
    for p in 0..fit.kept.terms.len() {
        let term_idx = term_of(fit.kept.terms, Col(p));
        let x = coeff_of(fit.coeffs, term_idx);
        a += at_term(theta, n_cols, i, term_idx) * x;
        b += at_term(theta, n_cols, i + 1, term_idx) * x;
        c += at_term(theta, n_cols, i + 2, term_idx) * x;
        d += at_term(theta, n_cols, i + 3, term_idx) * x;
    }
    let e = add_square(error, target[i], a);
    let f = add_square(e, target[i + 1], b);
    let g = add_square(f, target[i + 2], c);
    add_square(g, target[i + 3], d)
}

// The first rows: m times four.
fn walk_fours(fit: Fit<'_>, m: usize) -> f64
    requires { 4 * m ≤ fit.kept.theta.rows }
    ensures { result ≡ fit_squares by_rows (4 * m) fit.entry }
{
    let mut error = 0.0;
    for four in 0..m {
        error = add_four(fit, error, 4 * four);
    }
    error
}

// All rows: by fours, then those that are left.
fn walk(fit: Fit<'_>) -> f64
    ensures { result ≡ fit_squares by_rows fit.entry.kept.theta.rows fit.entry }
{
    let rows = fit.kept.theta.rows;
    let m = rows / 4;
    let mut error = walk_fours(fit, m);
    for i in 4 * m..rows {
        let sum = row_products(fit, i);
        error = add_square(error, fit.target[i], sum);
    }
    error
}

// All rows of theta, as it is stored.
fn walk_stored(fit: Fit<'_>) -> f64
    ensures { result ≡ fit_squares entries fit.entry.kept.theta.rows fit.entry }
{
    match fit.kept.theta.layout {
        Layout::ByRows => walk(fit),
        Layout::ByColumns => walk_columns(fit),
    }
}

// The squared error that the kept terms leave.
pub fn squared_error<'a>(
    theta: Theta<'a>,
    target: &'a [f64],
    kept: Support,
    coeffs: &'a [f64],
) -> f64
    requires { (kept.0 < 2 ^ theta.cols) × (length target.now ≡ theta.rows) × (length coeffs.now ≡ theta.cols) }
    ensures { result ≡ squared_error theta.entry.rows theta.entry.cols (entries theta.entry) (at target.now) kept.0 coeffs.now }
{
    let mut table = [0usize; 64];
    let kept = kept_columns(theta, kept, &mut table);
    walk_stored(Fit {
        kept,
        target,
        coeffs,
    })
}
