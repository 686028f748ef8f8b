//! The report of a run of a script: an outcome a line, then an entry a line, and last the control sum.

ghost use Rattle.std.specs.Prelude.{◌≡◌, Some, IfOk, string_bytes};
ghost use Rattle.console.specs.Report.{row_line, outcome_lines, rows_from, report};

use queries::sum::control_sum;
use script::outcome::Outcome;
use std::alloc::{AllocError, Global};
use std::fmt;
use trail::entry::Entry;

/// An entry of the trail and its number.
#[derive(Clone, Copy, Debug, PartialEq, Eq)]
pub struct Row {
    pub number: usize,
    pub entry: Entry,
}

/// Number, party, sequence number, operation, space, place, first value, global, local, node.
impl fmt::Display for Row {
    ghost output = { λ row. Some (row_line row.number row.«entry») };

    fn fmt<W: fmt::Write>(&self, f: &mut fmt::Formatter<W>) -> fmt::Result {
        let number = self.number;
        let Entry {
            party,
            sequence,
            operation,
            space,
            place,
            values,
            stamp,
        } = self.entry;
        let value = values.at[0];
        write!(
            f,
            "{number}\t{party}\t{sequence}\t{operation}\t{space}\t{place}\t{value}\t"
        )?;
        let global = stamp.global;
        let local = stamp.local;
        let node = stamp.node;
        write!(f, "{global}\t{local}\t{node}")
    }
}

// One loop a type, since a loop's proof speaks of all that was written before it.
#[derive(Clone, Copy)]
struct OutcomeLines<'a>(&'a [Outcome]);

impl fmt::Display for OutcomeLines<'_> {
    ghost output = { λ lines. Some (outcome_lines lines.0.now) };

    fn fmt<W: fmt::Write>(&self, f: &mut fmt::Formatter<W>) -> fmt::Result {
        for outcome in self.0 {
            writeln!(f, "{outcome}")?;
        }
        Ok(())
    }
}

#[derive(Clone, Copy)]
struct Rows<'a>(&'a [Entry]);

impl fmt::Display for Rows<'_> {
    ghost output = { λ rows. Some (rows_from 0 rows.0.now) };

    fn fmt<W: fmt::Write>(&self, f: &mut fmt::Formatter<W>) -> fmt::Result {
        for (number, entry) in self.0.iter().enumerate() {
            let row = Row {
                number,
                entry: *entry,
            };
            writeln!(f, "{row}")?;
        }
        Ok(())
    }
}

#[derive(Clone, Copy)]
struct Report<'o, 't> {
    outcomes: &'o [Outcome],
    trail: &'t [Entry],
}

impl fmt::Display for Report<'_, '_> {
    ghost output = { λ run. Some (report run.outcomes.now run.trail.now) };

    fn fmt<W: fmt::Write>(&self, f: &mut fmt::Formatter<W>) -> fmt::Result {
        let outcomes = OutcomeLines(self.outcomes);
        let rows = Rows(self.trail);
        let sum = control_sum(self.trail);
        writeln!(f, "{outcomes}{rows}sum\t{sum}")
    }
}

/// The report of a run, as one text.
pub fn report_of(heap: Global, outcomes: &[Outcome], trail: &[Entry]) -> Result<String, AllocError>
    ensures { IfOk result (λ text. string_bytes text ≡ report outcomes.now trail.now) }
{
    let report = Report { outcomes, trail };
    format!(in heap; "{report}")
}
