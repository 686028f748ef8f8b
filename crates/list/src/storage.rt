//! A list: what it may hold, how it lies in its memory, and what it does by the sequence of its records.

ghost use Rattle.std.specs.Prelude.{◌≡◌, ℕ, ◌+◌, ◌<◌, ◌≤◌, min, [], length, is_some, if◌then◌else◌, nat_lt};
ghost use Rattle.std.specs.List.{slice_get};
ghost use Rattle.list.specs.Contents.{contents, room, push_answer, pushed, removed};

use std::marker::Model;

/// A kind of record, with the most that a list of it may hold.
pub trait Record: Copy {
    const MOST: usize;

    ghost MOST: { ℕ };
}

// The memory is fixed and lent by the user, so no `Vec`.
/// The first `len` places of the memory are the list's records, oldest first.
#[derive(Drop)]
pub struct List<'a, T> {
    memory: &'a mut [T],
    len: usize,
}

impl<'a, T> Model for List<'a, T> {
    ghost use Rattle.std.specs.Prelude.{◌≤◌, length, take};
    ghost use Rattle.list.specs.Held.{Held};

    ghost Value = { Held T };

    ghost view = { λ l. record { records = take l.len l.memory.now; room = length l.memory.now } };

    ghost invariant = { λ l. l.len ≤ length l.memory.now };
}

/// A list has no free place; it holds as many records as it has room for.
#[derive(Clone, Copy, Debug, PartialEq, Eq)]
pub struct Full {
    pub capacity: usize,
}

impl<'a, T: Record> List<'a, T> {
    /// An empty list; memory past the most that its kind may hold is not used.
    pub fn new(memory: &'a mut [T]) -> List<'a, T>
        ensures { result ≡ record { records = []; room = min T.MOST (length memory.old) } }
    {
        let capacity = T::MOST.min(memory.len());
        List {
            memory: &mut memory[..capacity],
            len: 0,
        }
    }

    /// How many records it holds.
    pub fn len(&self) -> usize
        ensures value { result ≡ length (contents self.now) }
        ensures bound { result ≤ room self.now }
    {
        self.records().len()
    }

    /// How many records it has room for.
    pub fn capacity(&self) -> usize
        ensures { result ≡ room self.now }
    {
        self.memory.len()
    }

    /// The records, oldest first.
    pub fn records(&self) -> &[T]
        ensures value { result.now ≡ contents self.now }
        ensures bound { length result.now ≤ room self.now }
    {
        &self.memory[..self.len]
    }

    /// Adds at the end, unless the list is full.
    pub fn push(&mut self, newest: T) -> Result<(), Full>
        ensures answer { result ≡ push_answer (contents self.old) (room self.old) }
        ensures held { self.new ≡ record self.old { records = pushed (contents self.old) (room self.old) newest } }
    {
        let capacity = self.capacity();
        if self.len == capacity {
            return Err(Full { capacity });
        }
        self.memory[self.len] = newest;
        self.len += 1;
        Ok(())
    }

    /// The record at a place, if the list has one there.
    pub fn get(&self, place: usize) -> Option<T>
        ensures answer { result ≡ slice_get (contents self.now) place }
        ensures test { is_some result ≡ nat_lt place (length (contents self.now)) }
    {
        self.records().get(place).copied()
    }

    /// Gives up the record at a place, if the list has one there, and closes the gap.
    #[tactic(auto, using(crate::proofs::Gap::no_gap))]
    pub fn remove(&mut self, place: usize) -> Option<T>
        ensures answer { result ≡ slice_get (contents self.old) place }
        ensures held { self.new ≡ record self.old { records = removed (contents self.old) place } }
        ensures len { length (contents self.new) + (if is_some result then 1 else 0) ≡ length (contents self.old) }
    {
        let record = self.get(place)?;
        self.close_gap(place);
        Some(record)
    }

    /// Gives up all records.
    pub fn clear(&mut self)
        ensures { self.new ≡ record self.old { records = [] } }
    {
        self.len = 0;
    }

    // Moves the records behind a place down by one.
    fn close_gap(&mut self, place: usize)
        requires { place < length (contents self.old) }
        ensures { self.new ≡ record self.old { records = removed (contents self.old) place } }
    {
        self.memory.copy_within(place + 1..self.len, place);
        self.len -= 1;
    }
}

#[cfg(test)]
mod tests {
    use super::*;

    #[derive(Clone, Copy, PartialEq, Eq, Debug)]
    struct Note {
        pitch: u8,
    }

    impl Record for Note {
        const MOST: usize = 3;

        ghost MOST = { 3 };
    }

    #[test]
    fn closes_the_gap(rt: HostRuntime) {
        let mut memory = [Note { pitch: 0 }; 5];
        let mut notes = List::new(&mut memory);
        assert_eq!(rt; notes.capacity(), 3);
        for pitch in 1..=4 {
            let _ = notes.push(Note { pitch });
        }
        assert_eq!(rt; notes.len(), 3);
        assert_eq!(rt; notes.remove(1), Some(Note { pitch: 2 }));
        assert_eq!(rt; notes.get(1), Some(Note { pitch: 3 }));
        assert_eq!(rt; notes.remove(2), None);
    }
}
