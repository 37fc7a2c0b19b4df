// Theta's supported columns with as many more rows below, and the target with zeros below it: what least squares solves for a refit.
pub mod columns;

ghost use Rattle.std.specs.Prelude.{◌≡◌, cond, ◌+◌, ◌*◌, ◌^◌, ◌≤◌, ◌<◌, eqb, length, set};
ghost use Rattle.std.specs.Int.Count.{ones};
ghost use Rattle.steps.specs.Num.{+zero, at};
ghost use Rattle.steps.specs.Rows.{Rows};
ghost use Rattle.steps.specs.Table.{tab};
ghost use Rattle.steps.specs.Wrote.{Wrote};
ghost use Rattle.places.specs.Theta.{entries, by_rows, reduced as reduced_entries};
ghost use Rattle.places.specs.Columns.{listed};
ghost use Rattle.rule.specs.Fits.{padded};
ghost use Rattle.augment.specs.Ridged.{Ridged, qr_matrix};

use crate::inner::columns::gather_columns;
use float64::sqrt;
use places::inner::{at_place, kept_columns};
use places::{Layout, Reduced, Theta};
use slices::inner::{clear, copy, put};
use support::{Col, Support};

// A number of the refit's matrix goes to a row and a reduced place, never to a term number.
fn put_at(s: &mut [f64], n_active: usize, i: usize, col: Col, x: f64)
    requires { i * n_active + col.0 < length s.old }
    ensures { s.new ≡ set s.old (i * n_active + col.0) x }
{
    put(s, n_active, i, col.0, x);
}

// Row i of the refit: the supported numbers of row i of theta, each at its reduced place.
fn take_row(reduced: Reduced<'_>, i: usize, s: &mut [f64])
    requires { (i < reduced.theta.rows) × (i * length reduced.terms.now + length reduced.terms.now ≤ length s.old) }
    ensures { Wrote (λ c. i * length reduced.entry.terms.now + c) 0 (length reduced.entry.terms.now) (listed reduced.entry.terms.now (by_rows reduced.entry.theta) i) s.old s.new }
{
    let n_active = reduced.terms.len();
    for c in 0..n_active {
        let col = Col(c);
        let x = at_place(reduced, i, col);
        put_at(s, n_active, i, col, x);
    }
}

// The rows of theta by rows, cut to the supported columns.
fn gather_rows(reduced: Reduced<'_>, s: &mut [f64])
    requires { reduced.theta.rows * length reduced.terms.now ≤ length s.old }
    ensures { Rows (reduced.entry.theta.rows + length reduced.entry.terms.now) (length reduced.entry.terms.now)
        (listed reduced.entry.terms.now (by_rows reduced.entry.theta)) s.old reduced.entry.theta.rows s.new }
{
    for i in 0..reduced.theta.rows {
        take_row(reduced, i, s);
    }
}

// The rows of theta, as it is stored, cut to the supported columns.
fn gather(reduced: Reduced<'_>, s: &mut [f64])
    requires { reduced.theta.rows * length reduced.terms.now ≤ length s.old }
    ensures { Rows (reduced.entry.theta.rows + length reduced.entry.terms.now) (length reduced.entry.terms.now) (reduced_entries reduced.entry) s.old reduced.entry.theta.rows s.new }
{
    match reduced.theta.layout {
        Layout::ByRows => gather_rows(reduced, s),
        Layout::ByColumns => gather_columns(reduced, s),
    }
}

// The rows below, one for each column of the refit: the root at its own column, +0.0 elsewhere.
fn ridge_entry(own: Col, col: Col, root: f64) -> f64
    ensures { result ≡ cond (eqb own.0 col.0) root +zero }
{
    if own == col { root } else { 0.0 }
}

fn ridge_row(i: usize, own: Col, n_active: usize, root: f64, s: &mut [f64])
    requires { i * n_active + n_active ≤ length s.old }
    ensures { Wrote (λ c. i * n_active + c) 0 n_active (λ c. cond (eqb own.0 c) root +zero) s.old s.new }
{
    for c in 0..n_active {
        let col = Col(c);
        let x = ridge_entry(own, col, root);
        put_at(s, n_active, i, col, x);
    }
}

// As many more rows, the root on their diagonal.
fn add_ridge(n_rows: usize, n_active: usize, root: f64, s: &mut [f64])
    requires { (n_rows ≤ 4096) × (n_active ≤ 64) × (length s.old ≡ (n_rows + n_active) * n_active) }
    ensures { Ridged n_rows n_active root n_active s.old s.new }
{
    for c in 0..n_active {
        ridge_row(n_rows + c, Col(c), n_active, root, s);
    }
}

// Theta's supported columns with the rows below.
pub fn augment(theta: Theta<'_>, support: Support, lambda: f64, s: &mut [f64])
    requires { (theta.rows ≤ 4096) × (support.0 < 2 ^ theta.cols) × (length s.old ≡ (theta.rows + ones support.0) * ones support.0) }
    ensures { s.new ≡ qr_matrix theta.entry.rows theta.entry.cols support.0 lambda (entries theta.entry) }
{
    let mut table = [0usize; 64];
    let kept = kept_columns(theta, support, &mut table);
    gather(kept, s);
    add_ridge(theta.rows, kept.terms.len(), sqrt(lambda), s);
}

// The target with zeros below it.
pub fn pad(target: &[f64], n_active: usize, b: &mut [f64])
    requires { (length target.now ≤ 4096) × (n_active ≤ 64) × (length b.old ≡ length target.now + n_active) }
    ensures { b.new ≡ tab (length target.now + n_active) (padded (length target.now) (at target.now)) }
{
    let n_rows = target.len();
    let m = n_rows + n_active;
    clear(b, m);
    copy(target, &mut b[..n_rows]);
}
