//! Processors read lamps by ticket: who asks for a word holds a ticket for it until it collects the word or gives it
//! up.

#![tactic(auto)]

mod bank;
mod shift;
mod tickets;
mod words;

use bank::Bank;
use list::List;
use message::kind::Kind;
use message::message::Message;
use raster::ticket::Ticketed;
use shift::{Report, start, work};
use std::io;
use trail::entry::Entry;
use words::{Done, Refused, Source};

fn show_report(rt: &impl Print, report: Report) -> io::Result<()> {
    println!(rt; "processor 1 asks twice: {}", Refused(report.again))?;
    println!(rt; "processor 0 is early: {}", Refused(report.early))?;
    println!(rt; "processor 0 reads {}", report.first)?;
    println!(rt; "processor 1 gives up")?;
    println!(rt; "processor 2 reads {}", report.third)
}

fn show_trail(
    rt: &impl Print,
    board: &Ticketed<Bank, Bank>,
    trail: &List<Entry>,
) -> io::Result<()> {
    for (number, entry) in trail.records().iter().enumerate() {
        println!(rt; "{number}: {}", Done(*entry))?;
        if entry.operation.is_read() {
            match board.source(trail, number, 0) {
                Ok(source) => println!(rt; "   source: {}", Source(source))?,
                Err(fault) => println!(rt; "   source: {}", Refused(fault))?,
            }
        }
    }
    Ok(())
}

fn main(rt: HostRuntime) -> io::Result<()> {
    let mut message_memory = [Message::plain(Kind::Gets, 0, 0, 0); 16];
    let mut entry_memory = [Entry::NONE; 16];
    let mut messages = List::new(&mut message_memory);
    let mut trail = List::new(&mut entry_memory);
    let mut board = start(&mut messages, &mut trail);
    let report = work(&mut board, &mut messages, &mut trail);
    show_report(&rt, report)?;
    show_trail(&rt, &board, &trail)
}
