// A page of rows, a row after another, in lent numbers.
ghost use Rattle.std.specs.Prelude.{◌*◌, ◌≤◌, length};

#[derive(Clone, Copy)]
pub struct Page<'a> {
    pub numbers: &'a [f64],
    pub cols: usize,
    pub rows: usize,
    pub ghost room: { rows * cols ≤ length numbers.now },
}
