// The rows of theta are read once, up to 32 of them a page, and every pair sum takes the page before the next is read. A sum still receives its rows in rising
// order, so its bits are those of a walk for each pair.
ghost use Rattle.std.specs.Prelude.{◌≡◌, ◌+◌, ◌-◌, ◌*◌, ◌≤◌, length, min};
ghost use Rattle.steps.specs.Num.{cell as cell_of};
ghost use Rattle.places.specs.Theta.{entries};
ghost use Rattle.sums.specs.Pages.{Holds, UpperSums};

use crate::inner::columns::fill_columns;
use pairs::inner::add_page;
use pairs::page::Page;
use places::{Layout, Theta};
use slices::inner::copy;

// A page takes the h rows from row i on, as they stand, of theta by rows.
fn fill_rows(theta: &[f64], n_cols: usize, i: usize, h: usize, page: &mut [f64])
    requires { (i * n_cols + h * n_cols ≤ length theta.now) × (h * n_cols ≤ length page.old) }
    ensures { Holds (cell_of n_cols theta.now) n_cols i h page.new }
{
    let from = i * n_cols;
    let long = h * n_cols;
    copy(&theta[from..from + long], &mut page[..long]);
}

// By either: nothing else of a fit by sums knows how theta is stored.
pub fn fill_page(theta: Theta<'_>, i: usize, h: usize, page: &mut [f64])
    requires { (i + h ≤ theta.rows) × (h * theta.cols ≤ length page.old) }
    ensures { Holds (entries theta.entry) theta.entry.cols i h page.new }
{
    match theta.layout {
        Layout::ByRows => fill_rows(theta.numbers, theta.cols, i, h, page),
        Layout::ByColumns => fill_columns(theta, i, h, page),
    }
}

// The page that begins with row i, in the room that is lent for it: 32 rows, or those that are left. Drawn in where it is called: of few columns a call a page shows.
#[inline(always)]
pub fn page_at<'a>(theta: Theta<'_>, i: usize, room: &'a mut [f64]) -> Page<'a>
    requires { (i ≤ theta.rows) × (32 * theta.cols ≤ length room.old) }
    ensures cols { result.cols ≡ theta.entry.cols }
    ensures rows { result.rows ≡ min (theta.entry.rows - i) 32 }
    ensures holds { Holds (entries theta.entry) theta.entry.cols i result.rows result.numbers.now }
{
    let h = (theta.rows - i).min(32);
    fill_page(theta, i, h, room);
    Page {
        numbers: room,
        cols: theta.cols,
        rows: h,
    }
}

// The sums take all rows, page by page, with room for pages of so many numbers.
fn add_pages<const ROOM: usize>(theta: Theta<'_>, out: &mut [f64])
    requires { (32 * theta.cols ≤ ROOM) × (ROOM ≤ 2048) × UpperSums (entries theta) theta.cols 0 out.old }
    ensures { UpperSums (entries theta.entry) theta.entry.cols theta.entry.rows out.new }
{
    let mut room = [0.0; ROOM];
    for number in 0..theta.rows.div_ceil(32) {
        let page = page_at(theta, 32 * number, &mut room);
        add_page(page, out);
    }
}

// The sums on and above the diagonal, +0.0 before, take all rows. Up to 16 columns take a quarter of the room to clear, which shows where there are few rows.
pub fn add_rows(theta: Theta<'_>, out: &mut [f64])
    requires { UpperSums (entries theta) theta.cols 0 out.old }
    ensures { UpperSums (entries theta.entry) theta.entry.cols theta.entry.rows out.new }
{
    if theta.cols > 16 {
        add_pages::<2048>(theta, out);
    } else {
        add_pages::<512>(theta, out);
    }
}
