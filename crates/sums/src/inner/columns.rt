// A page is gathered of theta by columns. Four columns at a time, so that each row of the page takes four numbers side by side, and then those that are left.
ghost use Rattle.std.specs.Prelude.{◌+◌, ◌*◌, ◌≤◌, ◌<◌, length};
ghost use Rattle.steps.specs.Num.{cell};
ghost use Rattle.steps.specs.Wrote.{Wrote};
ghost use Rattle.places.specs.Theta.{by_columns};
ghost use Rattle.places.specs.Down.{HoldsAt};
ghost use Rattle.sums.specs.Pages.{Holds};

use places::Theta;
use places::inner::{at_column, take_column};
use slices::inner::put;
use support::Term;

// Four numbers of row k of a page, from term j on: those of row i of theta.
fn fill_tile(theta: Theta<'_>, j: usize, i: usize, page: &mut [f64], k: usize)
    requires { (j + 4 ≤ theta.cols) × (i < theta.rows) × (k * theta.cols + theta.cols ≤ length page.old) }
    ensures { Wrote (λ q. k * theta.entry.cols + (j + q)) 0 4 (λ q. cell theta.entry.rows theta.entry.numbers.now (j + q) i) page.old page.new }
{
    for q in 0..4 {
        let x = at_column(theta.numbers, theta.rows, Term(j + q), i);
        put(page, theta.cols, k, j + q, x);
    }
}

// Four columns more, each number at its own term: those before them are there.
fn fill_four(theta: Theta<'_>, j: usize, i: usize, h: usize, page: &mut [f64])
    requires { (i + h ≤ theta.rows) × (h * theta.cols ≤ length page.old) × (j + 4 ≤ theta.cols)
        × HoldsAt (λ c. c) j (by_columns theta) theta.cols i h page.old }
    ensures { HoldsAt (λ c. c) (j + 4) (by_columns theta.entry) theta.entry.cols i h page.new }
{
    for k in 0..h {
        fill_tile(theta, j, i + k, page, k);
    }
}

// The first columns: m times four.
fn fill_fours(theta: Theta<'_>, m: usize, i: usize, h: usize, page: &mut [f64])
    requires { (i + h ≤ theta.rows) × (h * theta.cols ≤ length page.old) × (4 * m ≤ theta.cols) }
    ensures { HoldsAt (λ c. c) (4 * m) (by_columns theta.entry) theta.entry.cols i h page.new }
{
    for four in 0..m {
        fill_four(theta, 4 * four, i, h, page);
    }
}

// The page takes the h rows from row i on.
pub fn fill_columns(theta: Theta<'_>, i: usize, h: usize, page: &mut [f64])
    requires { (i + h ≤ theta.rows) × (h * theta.cols ≤ length page.old) }
    ensures { Holds (by_columns theta.entry) theta.entry.cols i h page.new }
{
    let m = theta.cols / 4;
    fill_fours(theta, m, i, h, page);
    for j in 4 * m..theta.cols {
        let term_idx = Term(j);
        take_column(
            theta.numbers,
            theta.rows,
            term_idx,
            i,
            h,
            page,
            theta.cols,
            term_idx.0,
        );
    }
}
