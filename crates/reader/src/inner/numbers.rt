// The numbers in the frames after the header, by theta's layout.
ghost use Rattle.std.specs.Prelude.{◌≡◌, ◌+◌, ◌*◌, ◌≤◌, length, take};
ghost use Rattle.steps.specs.Table.{tab, table};
ghost use Rattle.hexdigits.specs.Hex.{Digits};
ghost use Rattle.places.specs.Stored.{laid_out};
ghost use Rattle.reader.specs.Frames.{frame_at, Formed};
ghost use Rattle.reader.specs.Numbers.{frame_count, frame_digits, frame_number, target as target_of, feature, PartOf};

use crate::inner::frames::Frames;
use places::Layout;

// How many frames there are.
pub fn frame_count(layout: Layout, rows: usize, cols: usize) -> usize
    requires { cols ≤ 127 }
    ensures { result ≡ frame_count layout rows cols }
{
    match layout {
        Layout::ByRows => rows,
        Layout::ByColumns => 1 + cols,
    }
}

// The digits of each.
pub fn frame_digits(layout: Layout, rows: usize, cols: usize) -> usize
    requires { (rows ≤ 128) × (cols ≤ 127) }
    ensures { result ≡ frame_digits layout rows cols }
{
    match layout {
        Layout::ByRows => 16 * (1 + cols),
        Layout::ByColumns => 16 * rows,
    }
}

// The frames of an input.
pub fn frames_of(layout: Layout, rows: usize, cols: usize) -> Frames
    requires { (rows ≤ 128) × (cols ≤ 127) }
    ensures count { result.count ≡ frame_count layout rows cols }
    ensures width { result.width ≡ frame_digits layout rows cols }
{
    Frames {
        count: frame_count(layout, rows, cols),
        width: frame_digits(layout, rows, cols),
    }
}

// Number j of frame k.
fn number(s: &[u8], all: Frames, k: usize, j: usize) -> f64
    requires { (k ≤ all.count) × Digits s.now (frame_at all.width k + 16 * j) 16 }
    ensures { result ≡ frame_number s.now all.width k j }
{
    hexdigits::inner::float(s, all.at(k) + 16 * j)
}

// Reads the numbers of a part of the frames in order: so many frames from the first on, and of each so many numbers from a place on.
fn read_part(
    s: &[u8],
    all: Frames,
    first: usize,
    frames: usize,
    place: usize,
    each: usize,
    out: &mut [f64],
)
    requires { PartOf s.now all first frames place each × (frames * each ≤ length out.old) }
    ensures { take (frames * each) out.new ≡ table frames each (λ k j. frame_number s.now all.width (first + k) (place + j)) }
{
    let n = frames * each;
    for i in 0..n {
        out[i] = number(s, all, first + i / each, place + i % each);
    }
}

// Reads theta: the features, as they are stored.
pub fn read_theta(s: &[u8], layout: Layout, rows: usize, cols: usize, theta: &mut [f64])
    requires { Formed s.now (frame_count layout rows cols) (frame_digits layout rows cols) × (rows * cols ≤ length theta.old) }
    ensures { take (rows * cols) theta.new ≡ laid_out layout rows cols (feature s.now layout rows cols) }
{
    let all = frames_of(layout, rows, cols);
    match layout {
        Layout::ByRows => read_part(s, all, 0, rows, 1, cols, theta),
        Layout::ByColumns => read_part(s, all, 1, cols, 0, rows, theta),
    }
}

// Reads the target of each row.
pub fn read_target(s: &[u8], layout: Layout, rows: usize, cols: usize, target: &mut [f64])
    requires { Formed s.now (frame_count layout rows cols) (frame_digits layout rows cols) × (rows ≤ length target.old) }
    ensures { take rows target.new ≡ tab rows (target_of s.now layout rows cols) }
{
    let all = frames_of(layout, rows, cols);
    match layout {
        Layout::ByRows => read_part(s, all, 0, rows, 0, 1, target),
        Layout::ByColumns => read_part(s, all, 0, 1, 0, rows, target),
    }
}
