// The sums of the normal equations: the public calls.
#![tactic(auto)]

mod sizes;

ghost use Rattle.sums.specs.Inner.{damps};
ghost use Rattle.builders.specs.Calls.{JtjCall, JtrCall};

use places::{Layout, Theta};
use refusal::Answer;
pub use sums::inner::Damping;
use sums::inner::{damp, jtj_sums, jtr_sums};

// The products of the columns p and q of a matrix, summed over its rows, at (p,q) and at (q,p); each diagonal number is damped once it is finished: by lambda, or in proportion, by lambda times it, or by lambda alone where its magnitude is below 2^-52.
pub fn jtj(jac: &[f64], n_rows: usize, n_params: usize, damping: Damping, out: &mut [f64]) -> Answer
    ensures { JtjCall (damps damping) jac.now n_rows n_params out.old out.new result }
{
    sizes::jtj_sizes(n_rows, n_params, jac.len(), out.len())?;
    let theta = Theta {
        layout: Layout::ByRows,
        rows: n_rows,
        cols: n_params,
        numbers: jac,
    };
    jtj_sums(theta, out);
    damp(out, n_params, damping);
    Ok(())
}

// The products of each column of a matrix and the numbers r, summed over the rows.
pub fn jtr(jac: &[f64], r: &[f64], n_rows: usize, n_params: usize, out: &mut [f64]) -> Answer
    ensures { JtrCall jac.now r.now n_rows n_params out.old out.new result }
{
    sizes::jtr_sizes(n_rows, n_params, jac.len(), r.len(), out.len())?;
    jtr_sums(jac, r, n_rows, n_params, out);
    Ok(())
}
