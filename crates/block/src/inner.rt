// A solve from the kept sums. Each function may require what its caller tested.
ghost use Rattle.std.specs.Prelude.{◌≡◌, ◌+◌, ◌*◌, ◌^◌, ◌≤◌, ◌<◌, length};
ghost use Rattle.std.specs.Int.Count.{ones};
ghost use Rattle.refusal.specs.Answers.{told};
ghost use Rattle.normal.specs.Normal.{normal};
ghost use Rattle.sums.specs.Products.{jtj_matrix, jtr_column};
ghost use Rattle.sums.specs.Inner.{damps};
ghost use Rattle.sums.specs.Kept.{kept_size, pair, product, block, side};
ghost use Rattle.block.specs.Listed.{listed_pair};
ghost use Rattle.block.specs.Solved.{FromKept};

use crate::take::Listed;
use cholesky::inner::cholesky;
use lu::inner::lu;
use places::inner::list_terms;
use refusal::Solved;
use sums::inner::Damping;
use support::Support;

// The normal equations of the listed terms' block and b: Cholesky on the block; on its refusal LU on the block taken anew and the untouched b.
fn solve_listed(listed: Listed, damping: Damping, block: &mut [f64], b: &mut [f64]) -> Solved
    requires { (length b.old ≡ length listed.terms.now) × (length block.old ≡ length listed.terms.now * length listed.terms.now) }
    ensures { told result b.new ≡ normal (length listed.entry.terms.now)
        (jtj_matrix (damps damping) (length listed.entry.terms.now) (listed_pair listed.entry.cols listed.entry.terms.now listed.entry.kept.now)) b.old }
{
    let k = b.len();
    listed.take_block(damping, block);
    if cholesky(block, b, k).is_err() {
        listed.take_block(damping, block);
        return lu(block, b, k);
    }
    Ok(())
}

// The normal equations of a support's terms, from the kept sums. The workspace is those with room for the block behind them; they stay as they are.
pub fn solve_block(
    ws: &mut [f64],
    n_cols: usize,
    support: Support,
    damping: Damping,
    b: &mut [f64],
) -> Solved
    requires { (n_cols ≤ 64) × (support.0 < 2 ^ n_cols) × (length b.old ≡ ones support.0) × (length ws.old ≡ kept_size n_cols + length b.old * length b.old) }
    ensures { FromKept n_cols (ones support.0)
        (jtj_matrix (damps damping) (ones support.0) (block n_cols support.0 (pair n_cols ws.old)))
        (jtr_column (ones support.0) (side n_cols support.0 (product n_cols ws.old)))
        ws.old result b.new ws.new }
{
    let mut terms = [0usize; 64];
    list_terms(support, n_cols, &mut terms);
    let (kept, block) = ws.split_at_mut(n_cols * n_cols + n_cols);
    let listed = Listed {
        cols: n_cols,
        kept,
        terms: &terms[..b.len()],
    };
    listed.take_side(b);
    solve_listed(listed, damping, block, b)
}
