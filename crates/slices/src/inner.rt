// Each helper may require what its caller tested.
ghost use Rattle.std.specs.Prelude.{◌≡◌, ◌+◌, ◌*◌, ◌≤◌, ◌<◌, length, set};
ghost use Rattle.steps.specs.Num.{times, at, cell};
ghost use Rattle.steps.specs.Sums.{less_sum};
ghost use Rattle.steps.specs.Space.{cleared};

// A count of columns as it is, with a test that tells the compiler how few they are: it makes quicker loops of them.
pub fn few(n: usize) -> usize
    requires { n ≤ 64 }
    ensures { result ≡ n }
{
    if n > 64 { 64 } else { n }
}

// Row i, column j of a matrix of n columns.
pub fn cell(a: &[f64], n: usize, i: usize, j: usize) -> f64
    requires { i * n + j < length a.now }
    ensures { result ≡ cell n a.now i j }
{
    a[i * n + j]
}

// Row i, column j becomes x.
pub fn put(a: &mut [f64], n: usize, i: usize, j: usize, x: f64)
    requires { i * n + j < length a.old }
    ensures { a.new ≡ set a.old (i * n + j) x }
{
    a[i * n + j] = x;
}

// The first k numbers become +0.0.
pub fn clear(s: &mut [f64], k: usize)
    requires { k ≤ length s.old }
    ensures { s.new ≡ cleared k s.old }
{
    s[..k].fill(0.0);
}

// A slice of the same length becomes another. Written out, since the library's `copy_from_slice` makes the archive for C need `memmove`.
pub fn copy(from: &[f64], to: &mut [f64])
    requires { length from.now ≡ length to.old }
    ensures { to.new ≡ from.now }
{
    for (k, x) in to.iter_mut().enumerate() {
        *x = from[k];
    }
}

// A square matrix of n columns, by rows, in lent numbers that are only read.
#[derive(Clone, Copy)]
pub struct Square<'a> {
    pub n: usize,
    pub numbers: &'a [f64],
    pub ghost whole: { length numbers.now ≡ n * n },
}

impl<'a> Square<'a> {
    // Row i, column j.
    pub fn at(self, i: usize, j: usize) -> f64
        requires { (i < self.n) × (j < self.n) }
        ensures { result ≡ cell self.entry.n self.entry.numbers.now i j }
    {
        self.numbers[i * self.n + j]
    }

    // b(i) less the products of row i with b, in the columns lo..hi.
    pub fn row_sum(self, b: &[f64], i: usize, lo: usize, hi: usize) -> f64
        requires { (length b.now ≡ self.n) × (i < self.n) × (lo ≤ hi) × (hi ≤ self.n) }
        ensures { result ≡ less_sum (at b.now i) lo hi (λ k. times (cell self.entry.n self.entry.numbers.now i k) (at b.now k)) }
    {
        let mut s = b[i];
        for k in lo..hi {
            s = s - self.at(i, k) * b[k];
        }
        s
    }
}
