// A solve by the normal equations over a support's columns, from the kept sums: it reads no row.
ghost use Rattle.std.specs.Prelude.{◌≡◌, ◌+◌, ◌*◌, ◌^◌, ◌≤◌, ◌<◌, length, take};
ghost use Rattle.std.specs.Int.Count.{ones};
ghost use Rattle.sums.specs.Inner.{damps};
ghost use Rattle.sums.specs.Kept.{kept_size};
ghost use Rattle.rule.specs.Kept.{from_kept};
ghost use Rattle.refit.specs.Parts.{gave};

use block::inner::solve_block;
use refusal::Solved;
use slices::inner::few;
use sums::inner::Damping;
use support::Support;

// The right-hand side and the values in b, the block behind the kept sums of the workspace, which stay as they are.
pub fn solve_normal(
    n_cols: usize,
    damping: Damping,
    support: Support,
    b: &mut [f64],
    ws: &mut [f64],
) -> Solved
    requires { (n_cols ≤ 64) × (support.0 < 2 ^ n_cols) × (length b.old ≡ ones support.0) × (kept_size n_cols + length b.old * length b.old ≤ length ws.old) }
    ensures { (gave result b.new ≡ from_kept (damps damping) n_cols ws.old support.0)
        × (take (kept_size n_cols) ws.new ≡ take (kept_size n_cols) ws.old) }
{
    let n_cols = few(n_cols);
    let n_active = b.len();
    let e = n_cols * n_cols + n_cols + n_active * n_active;
    solve_block(&mut ws[0..e], n_cols, support, damping, b)
}
