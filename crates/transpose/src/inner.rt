// A factor of QR, Q-transpose of a right-hand side by it, and the read of a column that QR's own steps share. Each function may require what its caller tested.
ghost use Rattle.std.specs.Prelude.{◌≡◌, ◌+◌, ◌*◌, ◌≤◌, ◌<◌, length};
ghost use Rattle.steps.specs.Num.{one, at, cell};
ghost use Rattle.transpose.specs.Led.{led, along};
ghost use Rattle.transpose.specs.Transpose.{qt_column, qt};

// A factor in lent numbers that are only read: its columns packed, by rows, no wider than tall.
#[derive(Clone, Copy)]
pub struct Factor<'a> {
    pub rows: usize,
    pub cols: usize,
    pub numbers: &'a [f64],
    pub ghost whole: { length numbers.now ≡ rows * cols },
    pub ghost tall: { cols ≤ rows },
}

impl<'a> Factor<'a> {
    // Row i, column j.
    pub fn at(self, i: usize, j: usize) -> f64
        requires { (i < self.rows) × (j < self.cols) }
        ensures { result ≡ cell self.entry.cols self.entry.numbers.now i j }
    {
        self.numbers[i * self.cols + j]
    }

    // The stored column j, whose leading entry is 1, times the right-hand side b.
    fn stored_dot(self, b: &[f64], j: usize) -> f64
        requires { (length b.now ≡ self.rows) × (j < self.cols) }
        ensures { result ≡ along j self.entry.rows (led one (cell self.entry.cols self.entry.numbers.now) j) (at b.now) }
    {
        let mut w = -0.0;
        for i in j..self.rows {
            let v = led_at(self.numbers, self.cols, i, j, 1.0);
            w = w + v * b[i];
        }
        w
    }

    // Q-transpose of b, column j.
    fn turn_column(self, b: &mut [f64], j: usize, beta: f64)
        requires { (length b.old ≡ self.rows) × (j < self.cols) }
        ensures { b.new ≡ qt_column self.entry.rows self.entry.cols self.entry.numbers.now beta j b.old }
    {
        let w = self.stored_dot(b, j);
        let t = beta * w;
        for i in j..self.rows {
            let v = led_at(self.numbers, self.cols, i, j, 1.0);
            b[i] = b[i] - t * v;
        }
    }

    // Q-transpose of b, where these are the columns' betas.
    pub fn apply_qt(self, b: &mut [f64], betas: &[f64])
        requires { (length b.old ≡ self.rows) × (length betas.now ≡ self.cols) }
        ensures { b.new ≡ qt self.entry.rows self.entry.cols self.entry.numbers.now betas.now b.old }
    {
        for (j, beta) in betas.iter().enumerate() {
            self.turn_column(b, j, *beta);
        }
    }
}

// Row i of column j, whose leading entry is x.
pub fn led_at(a: &[f64], n: usize, i: usize, j: usize, x: f64) -> f64
    requires { i * n + j < length a.now }
    ensures { result ≡ led x (cell n a.now) j i }
{
    if i == j { x } else { a[i * n + j] }
}
