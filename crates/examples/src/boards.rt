//! Whole runs: a word stored and read, and a board outside its figures. The devices are never asked.

use coherence::call::Call;
use coherence::fault::Fault;
use list::List;
use message::kind::Kind;
use message::message::Message;
use raster::board::Board;
use raster::run::run;
use raster::ticket::Ticketed;
use sweepers::scanner::Scanner;
use trail::entry::Entry;

// Processor 0 comes to own block 0, and changes and reads its first word.
const CALLS: [Call; 5] = [
    Call::Request {
        processor: 0,
        block: 0,
        kind: 2,
    },
    Call::Deliver { place: 0 },
    Call::Deliver { place: 0 },
    Call::Store {
        processor: 0,
        word: 0,
        value: 7,
    },
    Call::Load {
        processor: 0,
        word: 0,
    },
];

// Memory for 16 waiting messages and 16 entries.
fn memory() -> ([Message; 16], [Entry; 16]) {
    ([Message::plain(Kind::Gets, 0, 0, 0); 16], [Entry::NONE; 16])
}

fn refused_with(answer: Result<Option<u32>, Fault>) -> Option<(u32, usize)> {
    answer.err().map(|fault| (fault.number(), fault.place()))
}

#[test]
fn a_stored_word_is_read(rt: HostRuntime) {
    let (mut waiting, mut entries) = memory();
    let (mut messages, mut trail) = (List::new(&mut waiting), List::new(&mut entries));
    let mut board = Board::make(
        1,
        0,
        &[0; 64],
        Scanner::new(),
        Scanner::new(),
        &mut messages,
        &mut trail,
    );
    let mut answers = [Ok(None); 5];
    board.call_all(&mut messages, &mut trail, &CALLS, &mut answers);
    assert!(rt;
        matches!(
            answers,
            [Ok(None), Ok(None), Ok(None), Ok(None), Ok(Some(7))]
        )
    );
    assert!(rt; matches!(board.source(&trail, 1, 0), Ok(Some((0, 7)))));
    assert!(rt; matches!(Ticketed::new(board).source(&trail, 1, 0), Ok(Some((0, 7)))));
}

#[test]
fn outside_its_figures_a_board_refuses_all(rt: HostRuntime) {
    let (mut waiting, mut entries) = memory();
    let (mut messages, mut trail) = (List::new(&mut waiting), List::new(&mut entries));
    let mut answers = [Ok(None); 5];
    // One processor too many.
    let _board = run(
        5,
        0,
        &[0; 64],
        Scanner::new(),
        Scanner::new(),
        &mut messages,
        &mut trail,
        &CALLS,
        &mut answers,
    );
    for answer in answers {
        assert_eq!(rt; refused_with(answer), Some((1, 0)));
    }
}
