//! A script played: its first line makes the board, and each later line makes its call.

ghost use Rattle.std.specs.Prelude.{◌≡◌};
ghost use Rattle.list.specs.Contents.{contents, room};
ghost use Rattle.script.specs.Lines.{seen, to_read};
ghost use Rattle.script.specs.Plays.{Lined, LinesPlayed, Played};
ghost use Rattle.script.specs.Scripts.{first_line, later, asked, opened, first_outcome, noted};

use crate::fault::ScriptFault;
use crate::line::{Line, Opening};
use crate::outcome::Outcome;
use crate::reader::Reader;
use device::meaning::Device;
use list::List;
use message::message::Message;
use raster::board::Board;
use trail::entry::Entry;

// The making that the first line asks for, if there is such a line.
fn first_line(lines: &mut Reader) -> Option<Result<Opening, ScriptFault>>
    ensures opening { result ≡ first_line (to_read lines.old) }
    ensures rest { to_read lines.new ≡ later (to_read lines.old) }
{
    let line = lines.next()?;
    Some(line.opening())
}

fn asked(opening: Option<Result<Opening, ScriptFault>>) -> Opening
    ensures { result ≡ asked opening }
{
    match opening {
        Some(Ok(opening)) => opening,
        _ => Opening {
            processors: 0,
            clock: 0,
        },
    }
}

// What the first line came to, once the board is made.
fn opened<A: Device, B: Device>(
    board: &Board<A, B>,
    opening: Result<Opening, ScriptFault>,
) -> Result<Option<u32>, ScriptFault>
    ensures { result ≡ opened board.now.tables.fit opening }
{
    opening?;
    board.check_fit()?;
    Ok(None)
}

fn note_first<A: Device, B: Device>(
    board: &Board<A, B>,
    opening: Option<Result<Opening, ScriptFault>>,
    outcomes: &mut List<Outcome>,
)
    ensures contents { contents outcomes.new
        ≡ noted (room outcomes.old) (contents outcomes.old) (first_outcome board.now.tables.fit opening) }
    ensures room { room outcomes.new ≡ room outcomes.old }
{
    if let Some(opening) = opening {
        let result = opened(board, opening);
        let _ = outcomes.push(Outcome { result });
    }
}

// Makes the call of a line.
fn call_line<A: Device, B: Device>(
    board: &mut Board<A, B>,
    messages: &mut List<Message>,
    trail: &mut List<Entry>,
    line: Line,
) -> Result<Option<u32>, ScriptFault>
    ensures { Lined A.Device B.Device board.old messages.old trail.old
        (seen line.entry) result board.new messages.new trail.new }
{
    let call = line.call()?;
    Ok(board.call(messages, trail, call)?)
}

// Makes the calls of the lines that are to come. As many outcomes are noted as there is room for.
fn call_lines<A: Device, B: Device>(
    board: &mut Board<A, B>,
    messages: &mut List<Message>,
    trail: &mut List<Entry>,
    lines: Reader,
    outcomes: &mut List<Outcome>,
)
    ensures { LinesPlayed A.Device B.Device board.old messages.old trail.old
        (to_read lines.entry) outcomes.old outcomes.new board.new messages.new trail.new }
{
    for line in lines {
        let result = call_line(board, messages, trail, line);
        let _ = outcomes.push(Outcome { result });
    }
}

/// Plays a script: its first line makes the board, and each later line makes its call. The lines' outcomes are noted in
/// turn while there is room. The run keeps the order promise.
pub fn play<A: Device, B: Device>(
    script: &[u8],
    words: &[u32],
    first: A,
    second: B,
    messages: &mut List<Message>,
    trail: &mut List<Entry>,
    outcomes: &mut List<Outcome>,
) -> Board<A, B>
    ensures { Played A.Device B.Device script.now words.now first second messages.old trail.old
        outcomes.old outcomes.new result messages.new trail.new }
{
    let mut lines = Reader::new(script);
    let opening = first_line(&mut lines);
    let Opening { processors, clock } = asked(opening);
    let mut board = Board::make(processors, clock, words, first, second, messages, trail);
    note_first(&board, opening, outcomes);
    call_lines(&mut board, messages, trail, lines, outcomes);
    board
}
