//! Devices at work: each is told what to do through its words, and its wishes are shown as they are accepted.

#![tactic(auto)]

mod act;
mod copier;
mod order;
mod wish_line;

use act::act;
use copier::Copier;
use device::meaning::{Device, NoWord};
use device::window::Window;
use order::Order;
use std::io;
use sweepers::plate_setter::PlateSetter;
use sweepers::scanner::Scanner;
use wish_line::WishLine;

fn report(rt: &impl Print, done: Result<(), NoWord>) -> io::Result<()> {
    if let Err(NoWord { place }) = done {
        println!(rt; "  no word {place}")?;
    }
    Ok(())
}

// Shows and accepts up to `most` wishes.
fn play<D: Device>(rt: &impl Print, device: &mut D, most: u32) -> io::Result<()> {
    // A count of turns, since a device may wish without end.
    for _ in 0..most {
        let Some(wish) = device.wish() else {
            return println!(rt; "  no wish");
        };
        println!(rt; "  {}", WishLine(wish))?;
        report(rt, act(device, wish))?;
    }
    Ok(())
}

fn sweep<D: Device>(rt: &impl Print, device: &mut D, order: Order, most: u32) -> io::Result<()> {
    report(rt, order.give(device))?;
    play(rt, device, most)
}

fn sweeps(rt: &impl Print) -> io::Result<()> {
    let mut setter = Window::new(PlateSetter::new(), 4, 8);
    let mut scanner = Scanner::new();

    println!(rt; "plate setter: 4 blocks from 3")?;
    sweep(rt, &mut setter, Order::new(3, 4, 2), 8)?;
    println!(rt; "scanner: 3 blocks from 0")?;
    report(rt, scanner.write(4, 10))?;
    sweep(rt, &mut scanner, Order::new(0, 3, 1), 8)?;
    println!(rt; "plate setter: no blocks")?;
    sweep(rt, &mut setter, Order::new(0, 0, 1), 8)?;
    println!(rt; "plate setter: 4 blocks from 8, stopped after two")?;
    sweep(rt, &mut setter, Order::new(8, 4, 0), 2)?;
    report(rt, order::stop(&mut setter))?;
    play(rt, &mut setter, 8)?;
    println!(rt; "scanner: 3 blocks across the end of 32 bits")?;
    report(rt, scanner.write(4, u32::MAX))?;
    sweep(rt, &mut scanner, Order::new(u32::MAX - 1, 3, 3), 8)
}

fn copies(rt: &impl Print) -> io::Result<()> {
    let mut copier = Copier::new();
    report(rt, copier.write(1, 7))?;
    report(rt, copier.write(0, 1))?;

    println!(rt; "copier behind a window of 8 words from word 1")?;
    play(rt, &mut Window::new(copier, 1, 8), 8)?;
    println!(rt; "copier behind a window of word 0")?;
    play(rt, &mut Window::new(copier, 0, 1), 1)?;
    println!(rt; "copier")?;
    play(rt, &mut copier, 8)?;
    match copier.read(2) {
        Ok(word) => println!(rt; "  word 2 is {word}"),
        Err(refused) => report(rt, Err(refused)),
    }
}

fn main(rt: HostRuntime) -> io::Result<()> {
    sweeps(&rt)?;
    copies(&rt)
}
