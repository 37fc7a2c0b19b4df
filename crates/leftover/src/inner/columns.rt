// Theta by columns: up to 256 rows at a time, the sums of the rows' products stand side by side and take a kept column after another. Each sum still takes its terms rising.
ghost use Rattle.std.specs.Prelude.{◌≡◌, ◌+◌, ◌≤◌, ◌<◌, length};
ghost use Rattle.steps.specs.Num.{plus, less, times, at, cell};
ghost use Rattle.steps.specs.Sums.{sum};
ghost use Rattle.steps.specs.Wrote.{Wrote};
ghost use Rattle.places.specs.Theta.{by_columns};
ghost use Rattle.leftover.specs.Error.{square, RowSums};
ghost use Rattle.leftover.specs.Fits.{kept_entries, kept_coeffs, fit_squares};

use crate::fit::Fit;
use crate::inner::{add_square, coeff_of};
use places::Theta;
use places::inner::{at_column, term_of};
use support::{Col, Term};

// A term more: each of the sums, from row i on, takes the product of its row and the term's coefficient.
fn add_term(theta: Theta<'_>, term_idx: Term, i: usize, x: f64, sums: &mut [f64])
    requires { (term_idx.0 < theta.cols) × (i + length sums.old ≤ theta.rows) }
    ensures { Wrote (λ m. m) 0 (length sums.old) (λ m. plus (at sums.old m) (times (cell theta.entry.rows theta.entry.numbers.now term_idx.0 (i + m)) x)) sums.old sums.new }
{
    for m in 0..sums.len() {
        sums[m] += at_column(theta.numbers, theta.rows, term_idx, i + m) * x;
    }
}

// The products of the rows from row i on, over the kept terms, rising.
fn row_sums(fit: Fit<'_>, i: usize, sums: &mut [f64])
    requires { i + length sums.old ≤ fit.kept.theta.rows }
    ensures { RowSums (length fit.entry.kept.terms.now) (kept_entries by_columns fit.entry) (kept_coeffs fit.entry) i (length sums.old) sums.new }
{
    sums.fill(0.0);
    for p in 0..fit.kept.terms.len() {
        let term_idx = term_of(fit.kept.terms, Col(p));
        let x = coeff_of(fit.coeffs, term_idx);
        add_term(fit.kept.theta, term_idx, i, x, sums);
    }
}

// The squares of so many rows more, each with its own target.
fn add_squares(start: f64, target: &[f64], sums: &[f64]) -> f64
    requires { length target.now ≡ length sums.now }
    ensures { result ≡ sum start 0 (length sums.now) (λ m. square (less (at target.now m) (at sums.now m))) }
{
    let mut error = start;
    for (t, s) in target.iter().zip(sums) {
        error = add_square(error, *t, *s);
    }
    error
}

// All rows, up to 256 at a time.
pub fn walk_columns(fit: Fit<'_>) -> f64
    ensures { result ≡ fit_squares by_columns fit.entry.kept.theta.rows fit.entry }
{
    let rows = fit.kept.theta.rows;
    let mut room = [0.0; 256];
    let mut error = 0.0;
    for page in 0..rows.div_ceil(256) {
        let i = 256 * page;
        let h = (rows - i).min(256);
        let sums = &mut room[..h];
        row_sums(fit, i, sums);
        error = add_squares(error, &fit.target[i..i + h], sums);
    }
    error
}
