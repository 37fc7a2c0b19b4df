// A table lists the term number of each reduced place. It is read and written at a reduced place only, and theta by a term number only.
ghost use Rattle.std.specs.Prelude.{◌≡◌, ℕ, ◌+◌, ◌*◌, ◌^◌, ◌≤◌, ◌<◌, length, get_or, set};
ghost use Rattle.std.specs.Int.Count.{ones};
ghost use Rattle.steps.specs.Num.{cell as cell_of};
ghost use Rattle.steps.specs.Wrote.{Wrote};
ghost use Rattle.places.specs.Columns.{Lists, listed};
ghost use Rattle.places.specs.Theta.{by_rows};

use crate::{Reduced, Theta};
use slices::inner::{cell, put};
use support::{Col, Support, Term};

// The term number of a reduced place goes to the table.
fn put_term(terms: &mut [usize], col: Col, term_idx: Term)
    requires { col.0 < length terms.old }
    ensures { terms.new ≡ set terms.old col.0 term_idx.0 }
{
    terms[col.0] = term_idx.0;
}

// Lists the term number of each reduced place.
pub fn list_terms(support: Support, n_cols: usize, terms: &mut [usize])
    requires { (support.0 < 2 ^ n_cols) × (n_cols ≤ length terms.old) }
    ensures { Lists n_cols support.0 terms.new }
{
    for j in 0..n_cols {
        let term_idx = Term(j);
        if support.contains(term_idx) {
            let col = support.place(term_idx);
            put_term(terms, col, term_idx);
        }
    }
}

// The term number of a reduced place.
pub fn term_of(terms: &[usize], col: Col) -> Term
    requires { col.0 < length terms.now }
    ensures { result.0 ≡ get_or terms.now col.0 0 }
{
    Term(terms[col.0])
}

// Row i of the column that has this term number, of theta or of the sums of its columns.
pub fn at_term(theta: &[f64], n_cols: usize, i: usize, term_idx: Term) -> f64
    requires { i * n_cols + term_idx.0 < length theta.now }
    ensures { result ≡ cell_of n_cols theta.now i term_idx.0 }
{
    cell(theta, n_cols, i, term_idx.0)
}

// Of theta by rows: row i of the column at a reduced place.
pub fn at_place(reduced: Reduced<'_>, i: usize, col: Col) -> f64
    requires { (i < reduced.theta.rows) × (col.0 < length reduced.terms.now) }
    ensures { result ≡ listed reduced.entry.terms.now (by_rows reduced.entry.theta) i col.0 }
{
    let theta = reduced.theta;
    at_term(theta.numbers, theta.cols, i, term_of(reduced.terms, col))
}

// Of theta by columns: row i of the column that has this term number.
pub fn at_column(theta: &[f64], n_rows: usize, term_idx: Term, i: usize) -> f64
    requires { term_idx.0 * n_rows + i < length theta.now }
    ensures { result ≡ cell_of n_rows theta.now term_idx.0 i }
{
    cell(theta, n_rows, term_idx.0, i)
}

// Its numbers, h of them from row i on, go to every width-th number of a page, the first of them to number `first`.
pub fn take_column(
    theta: &[f64],
    n_rows: usize,
    term_idx: Term,
    i: usize,
    h: usize,
    page: &mut [f64],
    width: usize,
    first: usize,
)
    requires { (term_idx.0 * n_rows + i + h ≤ length theta.now) × (0 < width) × ((k : ℕ) → k < h → k * width + first < length page.old) }
    ensures { Wrote (λ k. k * width + first) 0 h (λ k. cell_of n_rows theta.now term_idx.0 (i + k)) page.old page.new }
{
    for k in 0..h {
        let x = at_column(theta, n_rows, term_idx, i + k);
        put(page, width, k, first, x);
    }
}

// Theta's columns that a support has, by reduced place: their term numbers go to a table that is lent for them.
pub fn kept_columns<'a>(theta: Theta<'a>, support: Support, table: &'a mut [usize]) -> Reduced<'a>
    requires { (support.0 < 2 ^ theta.cols) × (theta.cols ≤ length table.old) }
    ensures theta { result.theta ≡ theta.entry }
    ensures lists { Lists theta.entry.cols support.0 result.terms.now }
    ensures long { length result.terms.now ≡ ones support.0 }
{
    list_terms(support, theta.cols, table);
    Reduced {
        theta,
        terms: &table[..support.count()],
    }
}
