//! Where words that were read came from, in trails of two and three entries.

use ordering::operation::{Operation, Words};
use ordering::stamp::Stamp;
use queries::source::source;
use trail::entry::Entry;
use trail::fault::SourceFault;

fn entry(operation: Operation, place: u32, value: u32, global: u64) -> Entry {
    let values = Words::one(value);
    let stamp = Stamp {
        global,
        local: 1,
        node: 0,
    };
    Entry {
        party: 0,
        sequence: 0,
        operation,
        space: 0,
        place,
        values,
        stamp,
    }
}

#[test]
fn the_greatest_stamp_below_is_the_source(rt: HostRuntime) {
    let older = entry(Operation::St, 4, 7, 2);
    let newer = entry(Operation::StBlk, 1, 8, 3);
    let read = entry(Operation::Ld, 4, 7, 5);
    let trail = [newer, older, read];
    assert_eq!(rt; source(&trail, 2, 0), Ok(Some((0, 8))));
    assert_eq!(rt; source(&trail, 2, 1), Err(SourceFault::NoWord));
    assert_eq!(rt; source(&trail, 0, 0), Err(SourceFault::NoRead));
}

#[test]
fn a_block_past_the_last_word_is_another_word(rt: HostRuntime) {
    let far = entry(Operation::StBlk, 0x4000_0000, 9, 1);
    let read = entry(Operation::Ld, 0, 0, 2);
    assert_eq!(rt; source(&[far, read], 1, 0), Ok(None));
}
