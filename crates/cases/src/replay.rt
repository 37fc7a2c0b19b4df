// The list of exchanges, by the oracle: `cd oracle/diff && cargo run --release --features stand-in -- replay 1 > ../../crates/cases/stdin`.
// An entry is two lengths of four hex digits and a newline, then an input and its answer; an entry with no answer names the group of those after it.
ghost use Rattle.std.specs.Prelude.{◌+◌, ◌≤◌, ◌≡◌, true, length, Some};
ghost use Rattle.frames.specs.Exchange.{answer_of};
ghost use Rattle.cases.specs.declared.replay.Entry.TheVariants.{Exchange};
ghost use Rattle.cases.specs.List.{head, EndsIn, Tallied};

use hexdigits::inner::{all_hex, number_at};

// What stands at a place of the list: a name up to its end, or an input and an answer up to theirs.
#[derive(Clone, Copy)]
enum Entry {
    Name(usize),
    Exchange(usize, usize),
}

// How many exchanges of a group were answered alike, of how many, and where the group ends.
#[derive(Clone, Copy)]
struct Tally {
    alike: usize,
    all: usize,
    end: usize,
}

// The bytes of an entry's two lengths and their newline.
const HEAD: usize = 9;

// The entry of two texts of these lengths from a place on, if they end within the list.
fn entry_of(from: usize, end: usize, first: usize, second: usize) -> Option<Entry>
    requires { from ≤ end }
    ensures { EndsIn result from end }
{
    if first > end - from {
        return None;
    }
    let mid = from + first;
    if second > end - mid {
        return None;
    }
    if second == 0 {
        Some(Entry::Name(mid))
    } else {
        Some(Entry::Exchange(mid, mid + second))
    }
}

// The entry at a place, if one stands there.
fn entry_at(list: &[u8], at: usize) -> Option<Entry>
    requires { at ≤ length list.now }
    ensures { EndsIn result (at + head) (length list.now) }
{
    if list.len() - at < HEAD || !all_hex(list, at, 8) {
        return None;
    }
    let first = number_at(list, at, 4) as usize;
    let second = number_at(list, at + 4, 4) as usize;
    entry_of(at + HEAD, list.len(), first, second)
}

// Whether an input is answered so.
fn alike(input: &[u8], wanted: &[u8]) -> bool
    ensures { (result ≡ true → answer_of input.now ≡ wanted.now) × (answer_of input.now ≡ wanted.now → result ≡ true) }
{
    let mut answer = [0u8; frames::ANSWER];
    let k = frames::respond(input, &mut answer);
    &answer[..k] == wanted
}

// Whether the input of an entry is answered so.
fn answered(list: &[u8], from: usize, mid: usize, end: usize) -> bool
    requires { EndsIn (Some (Exchange mid end)) from (length list.now) }
{
    alike(&list[from..mid], &list[mid..end])
}

// How many of so many exchanges were answered alike.
fn say_tally(rt: &impl Print, name: &[u8], tally: Tally) {
    let _ = rt.write_all(name);
    let _ = println!(rt; ": {} of {}", tally.alike, tally.all);
}

// Runs the exchanges from a place on, up to what is none.
fn group(list: &[u8], from: usize) -> Tally
    requires { from ≤ length list.now }
    ensures { Tallied result from (length list.now) }
{
    let mut tally = Tally {
        alike: 0,
        all: 0,
        end: from,
    };
    while let Some(Entry::Exchange(mid, end)) = entry_at(list, tally.end) {
        if answered(list, tally.end + HEAD, mid, end) {
            tally.alike += 1;
        }
        tally.all += 1;
        tally.end = end;
    }
    tally
}

// Runs the list group by group, and prints a line each.
fn groups(rt: &impl Print, list: &[u8]) -> Tally {
    let mut total = Tally {
        alike: 0,
        all: 0,
        end: 0,
    };
    while let Some(Entry::Name(end)) = entry_at(list, total.end) {
        let tally = group(list, end);
        say_tally(rt, &list[total.end + HEAD..end], tally);
        total.alike += tally.alike;
        total.all += tally.all;
        total.end = tally.end;
    }
    total
}

// Runs the list, and prints the total.
pub fn run(rt: &impl Print, list: &[u8]) {
    say_tally(rt, b"exchanges answered alike", groups(rt, list));
}
