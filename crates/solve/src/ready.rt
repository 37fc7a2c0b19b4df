// The work of the solvers, behind sizes that nothing refuses.
ghost use Rattle.std.specs.Prelude.{◌≡◌, ◌+◌, ◌*◌, ◌≤◌, length};
ghost use Rattle.steps.specs.Space.{cleared};
ghost use Rattle.refusal.specs.Answers.{told};
ghost use Rattle.normal.specs.Normal.{normal};
ghost use Rattle.inverse.specs.Inverse.{invert};
ghost use Rattle.least.specs.Least.{least};
ghost use Rattle.solve.specs.Calls.{LeastLeft, least_need};
ghost use Rattle.solve.specs.Sizes as S;

use crate::sizes::least_need;
use inverse::inner::invert;
use least::inner::least_of;
use normal::inner::normal_equations;
use refusal::{Answer, Refusal, Solved};
use slices::inner::{Square, clear, copy};

// The normal equations of sizes that nothing refuses: in n * n numbers of the workspace, which are cleared.
pub fn normal_ready(a: &[f64], b: &mut [f64], n: usize, workspace: &mut [f64]) -> Solved
    requires { (S.Square n (length a.now) (length b.old)) × (n * n ≤ length workspace.old) }
    ensures { (told result b.new ≡ normal n a.now b.old) × (workspace.new ≡ cleared (n * n) workspace.old) }
{
    let cells = a.len();
    let solved = normal_equations(Square { n, numbers: a }, b, &mut workspace[..cells]);
    clear(workspace, cells);
    solved
}

// The inverse of sizes that nothing refuses: its factor in n * n numbers of the workspace, which are cleared, as are n more.
pub fn invert_ready(a: &[f64], n: usize, out: &mut [f64], workspace: &mut [f64]) -> Solved
    requires { (S.InvertSized n (length a.now) (length out.old)) × (n * n + n ≤ length workspace.old) }
    ensures { (told result out.new ≡ invert n a.now out.old) × (workspace.new ≡ cleared (n * n + n) workspace.old) }
{
    let cells = a.len();
    let inverted = invert(Square { n, numbers: a }, out, &mut workspace[..cells]);
    clear(workspace, cells + n);
    inverted
}

// The least squares solution of a and b into `out`, worked out in ws, of m * n + m numbers.
fn least_into(a: &[f64], b: &[f64], m: usize, n: usize, out: &mut [f64], ws: &mut [f64]) -> Answer
    requires { (S.LeastSized m n (length a.now) (length b.now) (length out.old)) × (length ws.old ≡ m * n + m) }
    ensures { LeastLeft (least m n a.now b.now) out.old out.new result }
{
    let mn = a.len();
    least_of(a, b, ws, m, n).map_err(Refusal::SmallPivot)?;
    copy(&ws[mn..mn + n], out);
    Ok(())
}

// Least squares of sizes that nothing refuses: in as much of the workspace as it needs, which is cleared.
pub fn least_ready(
    a: &[f64],
    b: &[f64],
    m: usize,
    n: usize,
    out: &mut [f64],
    workspace: &mut [f64],
) -> Answer
    requires { (S.LeastSized m n (length a.now) (length b.now) (length out.old)) × (least_need m n ≤ length workspace.old) }
    ensures { (LeastLeft (least m n a.now b.now) out.old out.new result) × (workspace.new ≡ cleared (least_need m n) workspace.old) }
{
    let end = a.len() + m;
    let answer = least_into(a, b, m, n, out, &mut workspace[..end]);
    clear(workspace, least_need(m, n));
    answer
}
