//! A home at its first request, and a plate setter behind a bridge, from its command to its interrupt.

use bridge::perform::Outcome;
use bridge::state::Bridge;
use home::machine::Home;
use message::kind::Kind;
use message::message::Message;
use ordering::clock::Settle;
use ordering::operation::Words;
use std::test::Fail;
use sweepers::plate_setter::PlateSetter;

// One word stands first.
fn message(
    kind: Kind,
    sender: u32,
    receiver: u32,
    place: u32,
    word: u32,
    clock: u32,
) -> Message<u32> {
    Message {
        kind,
        sender,
        receiver,
        place,
        words: Words::one(word),
        clock,
        sequence: 0,
        exclusive: false,
        refused: None,
    }
}

// The plate setter is device 1, so its node is 5.
fn to_device(kind: Kind, sender: u32, place: u32, word: u32, clock: u32) -> Message<u32> {
    message(kind, sender, 5, place, word, clock)
}

fn act(bridge: &mut Bridge<PlateSetter>) -> Option<Outcome> {
    let plan = bridge.act(1, 2).ok()?.settled()?;
    Some(bridge.perform(1, plan))
}

fn deliver(bridge: &mut Bridge<PlateSetter>, message: Message<u32>) -> Option<Outcome> {
    let plan = bridge.receive(1, message)?.settled()?;
    Some(bridge.perform(1, plan))
}

fn sent(outcome: Option<Outcome>) -> Result<Message, Fail> {
    let [first, ..] = outcome.ok_or("no reaction")?.sent.at;
    Ok(first.ok_or("nothing sent")?)
}

// Commanded to fetch block 0, by a processor whose clock was 20.
fn commanded() -> Bridge<PlateSetter> {
    let mut bridge = Bridge::new(5, PlateSetter::new());
    let _ = deliver(&mut bridge, to_device(Kind::Wio, 0, 6, 1, 0));
    let _ = deliver(&mut bridge, to_device(Kind::Wio, 0, 4, 1, 20));
    bridge
}

#[test]
fn the_first_to_ask_owns_the_block(rt: HostRuntime) -> Result<(), Fail> {
    let home = Home::new(0, Words::ZERO);
    let reaction = home
        .receive(0, message(Kind::Getx, 2, 16, 0, 0, 0))
        .ok_or("no rule")?;
    let reply = reaction.sent.at[0].ok_or("no reply")?;
    assert_eq!(rt; reply.kind, Kind::XData);
    assert_eq!(rt; reply.receiver, 2);
    assert_eq!(rt; reply.clock, 1);
    Ok(())
}

#[test]
fn a_refused_request_goes_out_with_the_clock_now(rt: HostRuntime) -> Result<(), Fail> {
    let mut bridge = commanded();
    let request = sent(act(&mut bridge))?;
    assert_eq!(rt; request.kind, Kind::Rblk);
    assert_eq!(rt; request.clock, 21);
    let value = sent(deliver(&mut bridge, to_device(Kind::Rio, 1, 6, 0, 30)))?;
    assert_eq!(rt; value.words.at[0], 1);
    let mut nack = to_device(Kind::Nack, 16, 0, 0, 21);
    nack.refused = Some(Kind::Rblk);
    let again = sent(deliver(&mut bridge, nack))?;
    assert_eq!(rt; again.kind, Kind::Rblk);
    assert_eq!(rt; again.clock, 31);
    Ok(())
}

#[test]
fn the_interrupt_waits_for_the_block(rt: HostRuntime) -> Result<(), Fail> {
    let mut bridge = commanded();
    let _ = sent(act(&mut bridge))?;
    let fault = bridge
        .act(1, 2)
        .err()
        .ok_or("the interrupt overtook the block")?;
    assert_eq!(rt; fault.number(), 13);
    let taken = sent(deliver(&mut bridge, to_device(Kind::Words, 16, 0, 8, 40)))?;
    assert_eq!(rt; taken.kind, Kind::Taken);
    let interrupt = sent(act(&mut bridge))?;
    assert_eq!(rt; interrupt.kind, Kind::Int);
    assert_eq!(rt; interrupt.sequence, 1);
    assert!(rt; bridge.act(1, 2).is_err());
    Ok(())
}
