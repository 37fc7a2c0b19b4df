// Reading the list of exchanges.
ghost use Rattle.std.specs.Counts.{IsPrefixLen};

use input::inner::read_whole;
use std::io::Read;

// Reads the list in rooms of 1 to 64 bytes, so that the run tells a reader that ends where a read gave little.
pub fn read<R: Read>(input: &mut R, room: &mut [u8]) -> usize
    ensures { IsPrefixLen result room.new }
{
    let mut n = 0;
    let mut size = 1;
    while n < room.len() {
        let end = n + size.min(room.len() - n);
        match read_whole(input, &mut room[n..end]) {
            Ok(0) | Err(_) => break,
            Ok(k) => n += k,
        }
        size = size % 64 + 1;
    }
    n
}
