// The target products, kept side by side while the rows of a matrix are walked once.
ghost use Rattle.std.specs.Prelude.{◌+◌, ◌*◌, ◌≤◌, length};
ghost use Rattle.steps.specs.Num.{plus, times, at, cell as cell_of};
ghost use Rattle.steps.specs.Wrote.{Wrote};
ghost use Rattle.sums.specs.Inner.{Filled};
ghost use Rattle.sums.specs.Pages.{with_targets};

use places::inner::at_term;
use support::Term;

// Adds the products of x and row i to the sums of all terms.
fn add_row(theta: &[f64], n_cols: usize, i: usize, x: f64, sums: &mut [f64])
    requires { (i * n_cols + n_cols ≤ length theta.now) × (n_cols ≤ length sums.old) }
    ensures { Wrote (λ q. q) 0 n_cols (λ q. plus (at sums.old q) (times x (cell_of n_cols theta.now i q))) sums.old sums.new }
{
    for q in 0..n_cols {
        sums[q] += x * at_term(theta, n_cols, i, Term(q));
    }
}

// The sums take the first h rows of a page, or of theta itself, each with its target: the first row's is number i.
pub fn take_targets(
    page: &[f64],
    n_cols: usize,
    h: usize,
    target: &[f64],
    i: usize,
    sums: &mut [f64],
)
    requires { (h * n_cols ≤ length page.now) × (i + h ≤ length target.now) × (n_cols ≤ length sums.old) }
    ensures { Filled n_cols (with_targets page.now n_cols h target.now i sums.old) sums.new }
{
    for k in 0..h {
        add_row(page, n_cols, k, target[i + k], sums);
    }
}
