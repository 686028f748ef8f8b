//! An entry as it is recorded: party, sequence number, operation by name, space, place, four values,
//! global, local and node, parted by tabs.

ghost use Rattle.std.specs.Prelude.{◌≡◌, OnSome};
ghost use Rattle.audit.specs.Recorded.{named, next_named, next_words, after_words, next_stamp, after_stamp, recorded};
ghost use Rattle.std.specs.Str.{bytes_eq};
ghost use Rattle.text.specs.Parts.{unread, other_fields};

use ordering::operation::{Operation, Words};
use ordering::stamp::Stamp;
use text::Fields;
use trail::entry::Entry;

// Not a `TryFrom`: of a field that names none, nobody asks why.
fn operation_named(field: &[u8]) -> Option<Operation>
    ensures { result ≡ named field.now }
{
    match field {
        b"LD" => Some(Operation::Ld),
        b"ST" => Some(Operation::St),
        b"LDio" => Some(Operation::LdIo),
        b"STio" => Some(Operation::StIo),
        b"INT" => Some(Operation::Int),
        b"LDblk" => Some(Operation::LdBlk),
        b"STblk" => Some(Operation::StBlk),
        _ => None,
    }
}

fn next_operation(fields: &mut Fields) -> Option<Operation>
    ensures value { result ≡ next_named (unread fields.old) }
    ensures rest { unread fields.new ≡ other_fields (unread fields.old) }
{
    operation_named(fields.next()?)
}

fn next_words(fields: &mut Fields) -> Option<Words>
    ensures value { result ≡ next_words (unread fields.old) }
    ensures rest { OnSome result (unread fields.new ≡ after_words (unread fields.old)) }
{
    let at = [
        fields.number()?,
        fields.number()?,
        fields.number()?,
        fields.number()?,
    ];
    Some(Words { at })
}

fn next_stamp(fields: &mut Fields) -> Option<Stamp>
    ensures value { result ≡ next_stamp (unread fields.old) }
    ensures rest { OnSome result (unread fields.new ≡ after_stamp (unread fields.old)) }
{
    Some(Stamp {
        global: u64::from(fields.number()?),
        local: u64::from(fields.number()?),
        node: fields.number()?,
    })
}

/// The entry that a line records, or none where it is not of the form.
pub fn entry_of(line: &[u8]) -> Option<Entry>
    ensures { result ≡ recorded line.now }
{
    let mut fields = Fields::new(line);
    let entry = Entry {
        party: fields.number()?,
        sequence: fields.number()?,
        operation: next_operation(&mut fields)?,
        space: fields.number()?,
        place: fields.number()?,
        values: next_words(&mut fields)?,
        stamp: next_stamp(&mut fields)?,
    };
    fields.is_done().then_some(entry)
}
