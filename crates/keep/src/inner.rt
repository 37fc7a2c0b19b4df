// The sums of all columns and of the target, in one list, from one walk over the rows. Each function may require what its caller tested.
ghost use Rattle.std.specs.Prelude.{◌≡◌, ◌+◌, ◌*◌, ◌≤◌, length};
ghost use Rattle.steps.specs.Num.{at};
ghost use Rattle.places.specs.Theta.{entries};
ghost use Rattle.sums.specs.Products.{gram, moment};
ghost use Rattle.sums.specs.Kept.{kept_size, kept_sums};
ghost use Rattle.keep.specs.Taken.{KeptSums, TookPage};

use pairs::inner::add_page;
use pairs::page::Page;
use places::Theta;
use sums::inner::mirror::mirror;
use sums::inner::pages::page_at;
use sums::inner::walk::take_targets;

// The sums take the rows of a page, each with its target, the first of them number i: the pair sums, then the products behind them.
pub fn take_page(page: Page<'_>, target: &[f64], i: usize, sums: &mut [f64])
    requires { (i + page.rows ≤ length target.now) × (length sums.old ≡ kept_size page.cols) }
    ensures { TookPage page.entry.numbers.now page.entry.cols page.entry.rows target.now i sums.old sums.new }
{
    let (pairs, products) = sums.split_at_mut(page.cols * page.cols);
    add_page(page, pairs);
    take_targets(page.numbers, page.cols, page.rows, target, i, products);
}

// They take all rows, page by page, with room for pages of so many numbers.
fn keep_pages<const ROOM: usize>(theta: Theta<'_>, target: &[f64], sums: &mut [f64])
    requires { (32 * theta.cols ≤ ROOM) × (ROOM ≤ 2048) × (length target.now ≡ theta.rows) × KeptSums (entries theta) (at target.now) theta.cols 0 sums.old }
    ensures { KeptSums (entries theta.entry) (at target.now) theta.entry.cols theta.entry.rows sums.new }
{
    let mut room = [0.0; ROOM];
    for number in 0..theta.rows.div_ceil(32) {
        let i = 32 * number;
        let page = page_at(theta, i, &mut room);
        take_page(page, target, i, sums);
    }
}

// By how many columns there are, as in `jtj`.
fn keep_rows(theta: Theta<'_>, target: &[f64], sums: &mut [f64])
    requires { (length target.now ≡ theta.rows) × KeptSums (entries theta) (at target.now) theta.cols 0 sums.old }
    ensures { KeptSums (entries theta.entry) (at target.now) theta.entry.cols theta.entry.rows sums.new }
{
    if theta.cols > 16 {
        keep_pages::<2048>(theta, target, sums);
    } else {
        keep_pages::<512>(theta, target, sums);
    }
}

// The first pass over the rows: the pair sums, and the target products behind them.
pub fn keep_sums(theta: Theta<'_>, target: &[f64], sums: &mut [f64])
    requires { (length target.now ≡ theta.rows) × (length sums.old ≡ kept_size theta.cols) }
    ensures { sums.new
        ≡ kept_sums theta.entry.cols (gram (entries theta.entry) theta.entry.rows) (moment (entries theta.entry) (at target.now) theta.entry.rows) }
{
    sums.fill(0.0);
    keep_rows(theta, target, sums);
    mirror(&mut sums[..theta.cols * theta.cols], theta.cols);
}
