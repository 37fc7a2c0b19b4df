// The solve over a support's columns, by any solver. Each function may require what the public call of a fit has tested.
pub mod by_least;
pub mod by_normal;
pub mod method;

ghost use Rattle.std.specs.Prelude.{◌≡◌, ◌^◌, ◌≤◌, ◌<◌, length};
ghost use Rattle.rule.specs.Givens.{problem_given};
ghost use Rattle.rule.specs.Sizes.{Lent, task_need};
ghost use Rattle.refit.specs.Parts.{Counted, Kept, OverSupport, gave};

use crate::inner::by_least::solve_qr;
use crate::inner::by_normal::solve_normal;
use crate::inner::method::{Method, method_of};
use coeffs::inner::scatter;
use keep::inner::keep_sums;
use refusal::Solved;
use rule::Given;
use support::{Col, Support, Term};

// What a fit keeps of the rows for its solves: by the normal equations the sums of all columns, by least squares nothing.
pub fn keep(given: Given, ws: &mut [f64])
    requires { task_need given.task ≤ length ws.old }
    ensures { Kept given.entry ws.new }
{
    if let Method::Sums(_) = method_of(given.task.solver, given.task.setup.lambda) {
        let n_cols = given.task.cols;
        let h = n_cols * n_cols + n_cols;
        keep_sums(given.theta(), given.target, &mut ws[0..h]);
    }
}

// The values of the support's columns by reduced place, in b.
fn solve_columns(given: Given, support: Support, b: &mut [f64], ws: &mut [f64]) -> Solved
    requires { Counted given support.0 (length b.old) × (task_need given.task ≤ length ws.old) × Kept given ws.old }
    ensures { (gave result b.new ≡ (problem_given given.entry).solve support.0)
        × Kept given.entry ws.new }
{
    match method_of(given.task.solver, given.task.setup.lambda) {
        Method::Sums(damping) => solve_normal(given.task.cols, damping, support, b, ws),
        Method::Rows => solve_qr(given, support, b, ws),
    }
}

// The solve over a support's columns, its values put at their terms; or the term of theta at which it refused.
pub fn solve_terms(
    given: Given,
    support: Support,
    coeffs: &mut [f64],
    ws: &mut [f64],
) -> Result<(), Term>
    requires { Lent given.task coeffs.old ws.old × (support.0 < 2 ^ given.task.cols) × Kept given ws.old }
    ensures { OverSupport given.entry support.0 result coeffs.new
        × Kept given.entry ws.new }
{
    let n_active = support.count();
    match solve_columns(given, support, &mut coeffs[0..n_active], ws) {
        Ok(()) => {
            scatter(coeffs, support);
            Ok(())
        }
        Err(col) => Err(support.term_at(Col(col))),
    }
}
