// The bench program: reads standard input whole, and writes the answer to standard output.
#![tactic(auto)]

use exchange::inner::INPUT;
use frames::ANSWER;
use input::inner::read_input;

// A read that fails ends the program with nothing written; so does a closed output.
fn main(rt: HostRuntime) {
    let mut room = [0u8; INPUT];
    let Ok(n) = read_input(&mut rt.stdin(), &mut room) else {
        return;
    };
    let mut answer = [0u8; ANSWER];
    let k = frames::respond(&room[..n], &mut answer);
    let _ = rt.write_all(&answer[..k]);
}
