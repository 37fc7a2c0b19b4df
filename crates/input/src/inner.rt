// A reader read whole, by what std's read promises: the bytes that come are the reader's next, as far as it says which these are.
ghost use Rattle.std.specs.Prelude.{◌≡◌, ◌+◌, ◌≤◌, length, IfOk};
ghost use Rattle.exchange.specs.Limits.{input_room};
ghost use Rattle.input.specs.Read.{Came, Gave, after_read};

use std::io;
use std::io::Read;

// After n bytes, a read with room for `left` more answered `got`: how many have come now, none where the input has ended.
fn after_read(n: usize, got: io::Result<usize>, left: usize) -> io::Result<Option<usize>>
    requires some { IfOk got (λ k. k ≤ left) }
    requires fits { n + left ≤ 0x7fff_ffff_ffff_ffff }
    ensures { result ≡ after_read n got }
{
    let more = got?;
    if more > 0 {
        Ok(Some(n + more))
    } else {
        Ok(None)
    }
}

// Reads until the input ends or `room` is full.
pub fn read_whole<R: Read>(input: &mut R, room: &mut [u8]) -> io::Result<usize>
    ensures room { Came result room.new }
    ensures bytes { Gave (R.remaining input.old) (R.remaining input.new) result room.new }
{
    let mut n = 0;
    while n < room.len() {
        let left = room.len() - n;
        let got = input.read(&mut room[n..]);
        match after_read(n, got, left)? {
            Some(come) => n = come,
            None => break,
        }
    }
    Ok(n)
}

// Reads an input of a bench program, into a room of just the length at which what a longer input has beyond it changes no answer (`cut_alike_by`).
pub fn read_input<R: Read>(input: &mut R, room: &mut [u8]) -> io::Result<usize>
    requires { length room.old ≡ input_room }
    ensures room { Came result room.new }
    ensures bytes { Gave (R.remaining input.old) (R.remaining input.new) result room.new }
{
    read_whole(input, room)
}
