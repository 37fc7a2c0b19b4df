// Theta by columns: its supported columns become rows of the refit's matrix.
ghost use Rattle.std.specs.Prelude.{◌+◌, ◌*◌, ◌≤◌, length};
ghost use Rattle.steps.specs.Rows.{Rows};
ghost use Rattle.places.specs.Columns.{listed};
ghost use Rattle.places.specs.Theta.{by_columns};
ghost use Rattle.augment.specs.Taken.{Taken};

use places::Reduced;
use places::inner::{take_column, term_of};
use support::Col;

// Of theta by columns: the h rows of the refit from row i on, a supported column after another, each at its reduced place.
fn take_columns(reduced: Reduced<'_>, i: usize, h: usize, s: &mut [f64])
    requires { (i + h ≤ reduced.theta.rows) × (reduced.theta.rows * length reduced.terms.now ≤ length s.old) }
    ensures { Taken (length reduced.entry.terms.now)
        (listed reduced.entry.terms.now (by_columns reduced.entry.theta))
        i h (length reduced.entry.terms.now) s.old s.new }
{
    let theta = reduced.theta;
    let n_active = reduced.terms.len();
    for c in 0..n_active {
        let col = Col(c);
        let term_idx = term_of(reduced.terms, col);
        let first = i * n_active + col.0;
        take_column(
            theta.numbers,
            theta.rows,
            term_idx,
            i,
            h,
            s,
            n_active,
            first,
        );
    }
}

// All rows, up to 32 at a time: so a column's numbers go to few lines of the memory before the next column's do.
pub fn gather_columns(reduced: Reduced<'_>, s: &mut [f64])
    requires { reduced.theta.rows * length reduced.terms.now ≤ length s.old }
    ensures { Rows (reduced.entry.theta.rows + length reduced.entry.terms.now) (length reduced.entry.terms.now)
        (listed reduced.entry.terms.now (by_columns reduced.entry.theta))
        s.old reduced.entry.theta.rows s.new }
{
    let rows = reduced.theta.rows;
    for page in 0..rows.div_ceil(32) {
        let i = 32 * page;
        let h = (rows - i).min(32);
        take_columns(reduced, i, h, s);
    }
}
