//! All that the program `board` writes: a script is played on one board, from zero memory, and what came of it is
//! reported.

ghost use Rattle.std.specs.Prelude.{◌≡◌, IfOk, OnOk, string_bytes};
ghost use Rattle.script.specs.Lines.{script_lines};
ghost use Rattle.console.specs.Program.{output_with, output_of, Kept, empty};

use crate::report::report_of;
use device::window::Window;
use list::{List, Record};
use message::kind::Kind;
use message::message::Message;
use script::outcome::Outcome;
use script::play::play;
use std::alloc::{AllocError, Global};
use sweepers::plate_setter::PlateSetter;
use sweepers::scanner::Scanner;
use trail::entry::Entry;

// Device 0 is a plate setter behind a window of 8 words from word 4, and device 1 a scanner.
fn output_with(
    heap: Global,
    script: &[u8],
    messages: &mut List<Message>,
    trail: &mut List<Entry>,
    outcomes: &mut List<Outcome>,
) -> Result<String, AllocError>
    ensures text { IfOk result (λ text.
        string_bytes text ≡ output_with (script_lines script.now) messages.old trail.old outcomes.old) }
    ensures promise { Kept (script_lines script.now) messages.old trail.old }
{
    let plates = Window::new(PlateSetter::new(), 4, 8);
    let _board = play(
        script,
        &[0; 64],
        plates,
        Scanner::new(),
        messages,
        trail,
        outcomes,
    );
    report_of(heap, outcomes.records(), trail.records())
}

/// What the board writes for a script. It has room for 64 waiting messages and 512 entries, and there is room for the
/// outcomes of 65,536 lines. The run that is reported keeps the order promise.
pub fn output_of(heap: Global, script: &[u8]) -> Result<String, AllocError>
    ensures text { IfOk result (λ text. string_bytes text ≡ output_of script.now) }
    ensures promise { OnOk result (Kept (script_lines script.now) (empty 64) (empty 512)) }
{
    let mut waiting = vec![in heap; Message::plain(Kind::Gets, 0, 0, 0); 64]?;
    let mut entries = vec![in heap; Entry::NONE; 512]?;
    let mut lines = vec![in heap; Outcome { result: Ok(None) }; Outcome::MOST]?;
    output_with(
        heap,
        script,
        &mut List::new(&mut waiting),
        &mut List::new(&mut entries),
        &mut List::new(&mut lines),
    )
}
