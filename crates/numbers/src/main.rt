// Document 01's numbers that are not marked, run: the marked ones are a proved table (crate `table`).
#![tactic(auto)]

mod fits;
mod solvers;

// A case's name, and whether it is as document 01 says.
fn say(rt: &impl Print, name: &[u8], ok: bool) {
    let _ = rt.write_all(name);
    if ok {
        let _ = rt.write_all(b": as document 01 says\n");
    } else {
        let _ = rt.write_all(b": DIFFERS\n");
    }
}

fn main(rt: HostRuntime) {
    fits::run(&rt);
    solvers::run(&rt);
}
