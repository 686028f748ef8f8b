//! Audits a recorded trail: where each word that was read came from, and whether the read agrees with it.

#![tactic(auto)]

use finding::audited;
use list::{List, Record};
use queries::sum::control_sum;
use record::entry_of;
use std::io;
use std::io::Read;
use text::Lines;
use trail::entry::Entry;

mod finding;
mod record;

// Reports what stands in no entry's form or finds no room, and goes on.
fn read_trail(rt: &HostRuntime, text: &[u8], trail: &mut List<Entry>) -> io::Result<()> {
    for (number, line) in (1_usize..).zip(Lines::new(text)) {
        match entry_of(line) {
            None => println!(rt; "line\t{number}\tnot an entry")?,
            Some(entry) => {
                if trail.push(entry).is_err() {
                    println!(rt; "line\t{number}\tno room")?;
                }
            }
        }
    }
    Ok(())
}

fn main(rt: HostRuntime) -> io::Result<()> {
    let heap = rt.alloc();
    let mut text = Vec::new(heap);
    rt.stdin().read_to_end(&mut text)?;
    let mut memory = vec![in heap; Entry::NONE; Entry::MOST]?;
    let mut trail = List::new(&mut memory);
    read_trail(&rt, &text, &mut trail)?;
    let entries = trail.records();
    // By the entries' numbers, which each finding has.
    for number in 0..entries.len() {
        for found in (0..4).filter_map(|word| audited(entries, number, word)) {
            rt.println(found)?;
        }
    }
    let sum = control_sum(entries);
    println!(rt; "sum\t{sum}")
}
