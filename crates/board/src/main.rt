//! The board, played from a script on standard input: up to 65,536 bytes, and any rest is left.

#![tactic(auto)]

use console::program::output_of;
use std::io;
use std::io::Read;

const MOST: u64 = 65_536;

fn main(rt: HostRuntime) -> io::Result<()> {
    let heap = rt.alloc();
    let mut script = Vec::new(heap);
    rt.stdin().take(MOST).read_to_end(&mut script)?;
    let output = output_of(heap, &script)?;
    print!(rt; "{output}")
}
