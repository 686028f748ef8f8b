//! Which of two operations of one party must come first: the two order tables, and the rule that reads them.

ghost use Rattle.std.specs.Prelude.{◌≡◌, ◌<◌};
ghost use Rattle.ordering.specs.Orders.{column, letter, one_target, ordered, TablesInWords, RuleInWords};

use crate::operation::Operation;

/// Who issues operations; each kind keeps an order of its own.
#[derive(Clone, Copy, Debug, PartialEq, Eq)]
pub enum Party {
    Processor,
    Device,
}

// Spaces and places that no board has may be named too, so these are numbers.
/// What an operation goes to.
#[derive(Clone, Copy, Debug, PartialEq, Eq)]
pub struct Access {
    pub operation: Operation,
    pub space: u32,
    pub place: u32,
}

// Flat tables, a letter a cell, as the rules print them.
// Rows are the earlier operation. Rows and columns: LD, ST, LDio, STio.
#[rattlefmt::skip]
const PROCESSOR: [char; 16] = [
    'A', 'A', 'A', 'A',
    'A', 'A', 'A', 'A',
    'A', 'A', 'D', 'D',
    '-', '-', 'D', 'D',
];

// Rows and columns: LDio, STio, INT, LDblk, STblk.
#[rattlefmt::skip]
const DEVICE: [char; 25] = [
    'D', 'D', 'A', 'A', 'A',
    'D', 'D', 'A', 'A', 'A',
    '-', '-', 'D', '-', '-',
    '-', '-', 'A', '-', '-',
    '-', '-', 'A', '-', '-',
];

impl Access {
    // Both go to one device; of two INTs, both to one processor.
    fn shares_target(self, other: Access) -> bool
        ensures { result ≡ one_target self other }
    {
        match self.operation {
            Operation::Int => self.place == other.place,
            _ => self.space == other.space,
        }
    }
}

impl Party {
    fn column(self, operation: Operation) -> Option<usize>
        ensures { result ≡ column self operation }
    {
        match (self, operation) {
            (Party::Processor, Operation::Ld) => Some(0),
            (Party::Processor, Operation::St) => Some(1),
            (Party::Processor, Operation::LdIo) => Some(2),
            (Party::Processor, Operation::StIo) => Some(3),
            (Party::Device, Operation::LdIo) => Some(0),
            (Party::Device, Operation::StIo) => Some(1),
            (Party::Device, Operation::Int) => Some(2),
            (Party::Device, Operation::LdBlk) => Some(3),
            (Party::Device, Operation::StBlk) => Some(4),
            _ => None,
        }
    }

    // The letter of the table's cell; an operation that the party never does has none.
    fn letter(self, earlier: Operation, later: Operation) -> char
        ensures { result ≡ letter self earlier later }
    {
        let (Some(row), Some(column)) = (self.column(earlier), self.column(later)) else {
            return '-';
        };
        match self {
            Party::Processor => PROCESSOR[4 * row + column],
            Party::Device => DEVICE[5 * row + column],
        }
    }

    /// Whether `earlier`, of the lower sequence number, must come before `later`.
    pub fn orders(self, earlier: Access, later: Access) -> bool
        ensures { result ≡ ordered self earlier later }
    {
        if earlier.space == later.space && earlier.place == later.place {
            return true;
        }
        match self.letter(earlier.operation, later.operation) {
            'A' => true,
            'D' => earlier.shares_target(later),
            _ => false,
        }
    }
}

/// The tables say, cell by cell, what the rule says in words.
#[tactic(auto, using(crate::proofs::Cells::tables_in_words))]
pub fn tables_are_in_words()
    ensures { TablesInWords }
{}

/// The rule orders what its words say, by the letter of the cell.
#[tactic(auto, using(crate::proofs::Rule::rule_in_words))]
pub fn rule_is_in_words()
    ensures { RuleInWords }
{}

#[cfg(test)]
mod tests {
    use super::*;

    fn access(operation: Operation, space: u32, place: u32) -> Access {
        Access {
            operation,
            space,
            place,
        }
    }

    #[test]
    fn a_store_to_a_lamp_is_overtaken_by_a_load(rt: HostRuntime) {
        let lamp = access(Operation::StIo, 1, 3);
        let other_lamp = access(Operation::LdIo, 2, 3);
        let word = access(Operation::Ld, 0, 40);
        assert!(rt; !Party::Processor.orders(lamp, word));
        assert!(rt; !Party::Processor.orders(lamp, other_lamp));
        assert!(rt; Party::Processor.orders(other_lamp, word));
    }

    #[test]
    fn a_report_comes_after_the_strip(rt: HostRuntime) {
        let strip = access(Operation::StBlk, 0, 7);
        let report = access(Operation::Int, 3, 1);
        assert!(rt; Party::Device.orders(strip, report));
        assert!(rt; !Party::Device.orders(report, strip));
    }
}
