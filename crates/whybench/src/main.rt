// The program that says why: reads an input of the bench program, and writes a line for each term to standard output.
#![tactic(auto)]

use causes::ANSWER;
use exchange::inner::INPUT;
use input::inner::read_input;

// A read that fails ends the program with nothing written; so does a closed output.
fn main(rt: HostRuntime) {
    let mut room = [0u8; INPUT];
    let Ok(n) = read_input(&mut rt.stdin(), &mut room) else {
        return;
    };
    let mut answer = [0u8; ANSWER];
    let k = causes::respond_why(&room[..n], &mut answer);
    let _ = rt.write_all(&answer[..k]);
}
