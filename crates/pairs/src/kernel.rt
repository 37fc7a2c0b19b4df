// Pair sums take the h rows of a page, in rising order: one sum, four of a row, or four by four, held in registers over the rows.
ghost use Rattle.std.specs.Prelude.{◌≡◌, ◌+◌, ◌*◌, ◌≤◌, ◌<◌, length};
ghost use Rattle.pairs.specs.Paged.{with_page, GrewBy};

use crate::fours::{four_at, four_more, put_four, put_tile, tile_at, tile_more};
use crate::page::Page;
use slices::inner::cell;

// The sum of the columns p and q.
pub fn sum_one(page: Page<'_>, p: usize, q: usize, out: &[f64]) -> f64
    requires { (length out.now ≡ page.cols * page.cols) × (p < page.cols) × (q < page.cols) }
    ensures { result ≡ with_page page.entry out.now p q }
{
    let n = page.cols;
    let mut s = cell(out, n, p, q);
    for i in 0..page.rows {
        s += cell(page.numbers, n, i, p) * cell(page.numbers, n, i, q);
    }
    s
}

// The sums of the column p and the columns q to q + 3.
pub fn sum_four(page: Page<'_>, p: usize, q: usize, out: &mut [f64])
    requires { (length out.old ≡ page.cols * page.cols) × (p < page.cols) × (q + 4 ≤ page.cols) }
    ensures { GrewBy page.entry p (p + 1) q (q + 4) out.old out.new }
{
    let n = page.cols;
    let mut s = four_at(out, n, p, q);
    for i in 0..page.rows {
        let y = four_at(page.numbers, n, i, q);
        s = four_more(s, cell(page.numbers, n, i, p), y);
    }
    put_four(out, n, p, q, s);
}

// The sums of the columns p to p + 3 and the columns q to q + 3.
pub fn sum_tile(page: Page<'_>, p: usize, q: usize, out: &mut [f64])
    requires { (length out.old ≡ page.cols * page.cols) × (p + 4 ≤ page.cols) × (q + 4 ≤ page.cols) }
    ensures { GrewBy page.entry p (p + 4) q (q + 4) out.old out.new }
{
    let n = page.cols;
    let mut s = tile_at(out, n, p, q);
    for i in 0..page.rows {
        let x = four_at(page.numbers, n, i, p);
        let y = four_at(page.numbers, n, i, q);
        s = tile_more(s, x, y);
    }
    put_tile(out, n, p, q, s);
}
