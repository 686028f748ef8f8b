//! Replays the kept examples: each script in `NAME.script` is played, and its output is compared with `NAME.expected`.

#![tactic(auto)]

use console::program::output_of;
use std::{env, fs, io};

// Whether a script comes out as is expected of it.
fn agrees(rt: &HostRuntime, name: &str) -> io::Result<bool> {
    let heap = rt.alloc();
    let script = format!(in heap; "{name}.script")?;
    let script = fs::read(rt, &script)?;
    let expected = format!(in heap; "{name}.expected")?;
    let expected = fs::read(rt, &expected)?;
    let output = output_of(heap, &script)?;
    Ok(output.as_bytes() == expected.as_slice())
}

fn main(rt: HostRuntime) -> io::Result<()> {
    // The first argument is the program's own name.
    for name in env::args(&rt)?.skip(1) {
        let verdict = if agrees(&rt, &name)? {
            "agrees"
        } else {
            "differs"
        };
        println!(rt; "{name}\t{verdict}")?;
    }
    Ok(())
}
