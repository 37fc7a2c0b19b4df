// Replays the list of exchanges on standard input: inputs of the bench program, each with the answer of the published Rust.
#![tactic(auto)]

mod list;
mod replay;

// Longer than the list.
const ROOM: usize = 327680;

fn main(rt: HostRuntime) {
    let mut room = [0u8; ROOM];
    let n = list::read(&mut rt.stdin(), &mut room);
    replay::run(&rt, &room[..n]);
}
