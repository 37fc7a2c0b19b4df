// The sums of the normal equations over all columns of a matrix, undamped, and the damping. Each function may require what its caller tested.
pub mod columns;
pub mod mirror;
pub mod pages;
pub mod walk;

ghost use Rattle.std.specs.Prelude.{◌≡◌, ◌*◌, length};
ghost use Rattle.steps.specs.Num.{at, cell as cell_of};
ghost use Rattle.steps.specs.Table.{table};
ghost use Rattle.places.specs.Theta.{entries};
ghost use Rattle.sums.specs.Products.{gram, moment, marquardt, jtj_matrix, jtr_column};
ghost use Rattle.sums.specs.Inner.{Matrix, damps};

use crate::inner::mirror::mirror;
use crate::inner::pages::add_rows;
use crate::inner::walk::take_targets;
use float64::abs;
use places::Theta;
use slices::inner::{cell, put};

// jtj before it is damped: the pair sums of every two columns, in one walk over the rows.
pub fn jtj_sums(theta: Theta<'_>, out: &mut [f64])
    requires { length out.old ≡ theta.cols * theta.cols }
    ensures { out.new ≡ table theta.entry.cols theta.entry.cols (gram (entries theta.entry) theta.entry.rows) }
{
    out.fill(0.0);
    add_rows(theta, out);
    mirror(out, theta.cols);
}

// How the diagonal of a finished matrix is damped: by lambda as it stands, or by lambda in proportion to the number.
#[derive(Clone, Copy, Debug, PartialEq)]
pub enum Damping {
    Ridge(f64),
    Proportion(f64),
}

// In proportion: lambda alone where the number's magnitude is below 2^-52, else (NaN too) lambda times the number.
fn marquardt(lambda: f64, d: f64) -> f64
    ensures { result ≡ marquardt lambda d }
{
    if abs(d) < f64::EPSILON {
        d + lambda
    } else {
        d + lambda * d
    }
}

// A finished diagonal number, damped.
fn damped(damping: Damping, d: f64) -> f64
    ensures { result ≡ damps damping d }
{
    match damping {
        Damping::Ridge(lambda) => d + lambda,
        Damping::Proportion(lambda) => marquardt(lambda, d),
    }
}

// Each diagonal number of a finished matrix of k columns is damped once.
pub fn damp(out: &mut [f64], k: usize, damping: Damping)
    requires { length out.old ≡ k * k }
    ensures { out.new ≡ jtj_matrix (damps damping) k (cell_of k out.old) }
{
    for p in 0..k {
        let d = cell(out, k, p, p);
        put(out, k, p, p, damped(damping, d));
    }
}

// jtr: the target products of every column.
pub fn jtr_sums(theta: &[f64], target: &[f64], n_rows: usize, n_cols: usize, out: &mut [f64])
    requires { Matrix n_rows n_cols (length theta.now) × (length target.now ≡ n_rows) × (length out.old ≡ n_cols) }
    ensures { out.new ≡ jtr_column n_cols (moment (cell_of n_cols theta.now) (at target.now) n_rows) }
{
    out.fill(0.0);
    take_targets(theta, n_cols, n_rows, target, 0, out);
}
