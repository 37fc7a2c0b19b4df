// All pair sums on and above the diagonal take the rows of a page. The first n mod 4 rows of the matrix are its edge: there sums are taken one by one and by four.
// What is left is four by four, so every row that is written stands side by side in memory.
ghost use Rattle.std.specs.Prelude.{◌≡◌, ◌+◌, ◌*◌, ◌≤◌, ◌<◌, length};
ghost use Rattle.pairs.specs.Paged.{GrewBy};

use crate::kernel::{sum_four, sum_one, sum_tile};
use crate::page::Page;
use slices::inner::put;

// Row p, the columns p to below k.
fn ones(page: Page<'_>, p: usize, k: usize, out: &mut [f64])
    requires { (length out.old ≡ page.cols * page.cols) × (p ≤ k) × (k ≤ page.cols) }
    ensures { GrewBy page.entry p (p + 1) p k out.old out.new }
{
    for q in p..k {
        let x = sum_one(page, p, q, out);
        put(out, page.cols, p, q, x);
    }
}

// Row p, the columns from k on: m times four.
fn fours(page: Page<'_>, p: usize, k: usize, m: usize, out: &mut [f64])
    requires { (length out.old ≡ page.cols * page.cols) × (p < page.cols) × (k + 4 * m ≡ page.cols) }
    ensures { GrewBy page.entry p (p + 1) k page.entry.cols out.old out.new }
{
    for four in 0..m {
        sum_four(page, p, k + 4 * four, out);
    }
}

// The rows below k.
fn edge(page: Page<'_>, k: usize, m: usize, out: &mut [f64])
    requires { (length out.old ≡ page.cols * page.cols) × (k + 4 * m ≡ page.cols) }
    ensures { GrewBy page.entry 0 k 0 page.entry.cols out.old out.new }
{
    for p in 0..k {
        ones(page, p, k, out);
        fours(page, p, k, m, out);
    }
}

// The rows p to p + 3, the columns from p on: m times four.
fn tiles(page: Page<'_>, p: usize, m: usize, out: &mut [f64])
    requires { (length out.old ≡ page.cols * page.cols) × (p + 4 ≤ page.cols) × (p + 4 * m ≡ page.cols) }
    ensures { GrewBy page.entry p (p + 4) p page.entry.cols out.old out.new }
{
    for tile in 0..m {
        sum_tile(page, p, p + 4 * tile, out);
    }
}

// The rows from k on: m times four.
fn bands(page: Page<'_>, k: usize, m: usize, out: &mut [f64])
    requires { (length out.old ≡ page.cols * page.cols) × (k + 4 * m ≡ page.cols) }
    ensures { GrewBy page.entry k page.entry.cols 0 page.entry.cols out.old out.new }
{
    for band in 0..m {
        tiles(page, k + 4 * band, m - band, out);
    }
}

// All rows.
pub fn add_page(page: Page<'_>, out: &mut [f64])
    requires { length out.old ≡ page.cols * page.cols }
    ensures { GrewBy page.entry 0 page.entry.cols 0 page.entry.cols out.old out.new }
{
    let m = page.cols / 4;
    let k = page.cols - 4 * m;
    edge(page, k, m, out);
    bands(page, k, m, out);
}
