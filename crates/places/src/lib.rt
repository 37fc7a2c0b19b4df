// How theta is stored, and its columns at the reduced places of a support, for the sums and for QR's matrix: nothing here is a public call.
#![tactic(auto)]

pub mod inner;

ghost use Rattle.std.specs.Prelude.{◌≡◌, ◌*◌, ◌≤◌, length};
ghost use Rattle.places.specs.Columns.{Names};

// How theta is stored: a row after another, or a column after another.
#[derive(Clone, Copy, Debug, PartialEq, Eq)]
pub enum Layout {
    ByRows,
    ByColumns,
}

// A matrix in lent numbers: so many rows of at most 64 columns, as they are stored.
#[derive(Clone, Copy)]
pub struct Theta<'a> {
    pub layout: Layout,
    pub rows: usize,
    pub cols: usize,
    pub numbers: &'a [f64],
    pub ghost few_columns: { cols ≤ 64 },
    pub ghost whole: { length numbers.now ≡ rows * cols },
}

// Theta's columns by reduced place: at each place stands the column of the term number that is listed there.
#[derive(Clone, Copy)]
pub struct Reduced<'a> {
    pub theta: Theta<'a>,
    pub terms: &'a [usize],
    pub ghost names: { Names theta.cols (length terms.now) terms.now },
}
