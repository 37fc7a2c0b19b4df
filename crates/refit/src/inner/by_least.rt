// A solve by least squares over a support's columns and as many more rows.
ghost use Rattle.std.specs.Prelude.{◌≡◌, ◌+◌, ◌*◌, ◌≤◌, length, drop};
ghost use Rattle.refusal.specs.Answers.{told};
ghost use Rattle.least.specs.Least.{values};
ghost use Rattle.rule.specs.Givens.{problem_given};
ghost use Rattle.rule.specs.Sizes.{task_need};
ghost use Rattle.refit.specs.Parts.{Counted, gave};

use augment::inner::{augment, pad};
use least::inner::least_packed;
use refusal::Solved;
use rule::{Given, Solver};
use slices::inner::copy;
use support::Support;

// The values stand at the head of the right-hand side, behind the matrix.
fn qr_values(given: Given, support: Support, n_active: usize, ws: &mut [f64]) -> Solved
    requires { Counted given support.0 n_active × (length ws.old ≡ (given.task.rows + n_active) * n_active + (given.task.rows + n_active)) × (given.task.solver ≡ Solver.Qr) }
    ensures { values n_active (told result (drop ((given.entry.task.rows + n_active) * n_active) ws.new))
        ≡ (problem_given given.entry).solve support.0 }
{
    let m = given.task.rows + n_active;
    let e = m * n_active;
    let f = e + m;
    augment(
        given.theta(),
        support,
        given.task.setup.lambda,
        &mut ws[0..e],
    );
    pad(given.target, n_active, &mut ws[e..f]);
    least_packed(ws, m, n_active)
}

// The same at the head of a fit's workspace, the values in b.
pub fn solve_qr(given: Given, support: Support, b: &mut [f64], ws: &mut [f64]) -> Solved
    requires { Counted given support.0 (length b.old) × (task_need given.task ≤ length ws.old) × (given.task.solver ≡ Solver.Qr) }
    ensures { gave result b.new ≡ (problem_given given.entry).solve support.0 }
{
    let n_active = b.len();
    let m = given.task.rows + n_active;
    let e = m * n_active;
    let f = e + m;
    let h = e + n_active;
    let solved = qr_values(given, support, n_active, &mut ws[0..f]);
    copy(&ws[e..h], b);
    solved
}
