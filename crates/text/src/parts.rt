//! The parts of a run of bytes, each up to a mark.

ghost use Rattle.std.specs.Prelude.{◌≡◌, ◌+◌, ◌<◌, ◌≤◌, ◌==◌, length, take, OnSome};
ghost use Rattle.std.specs.List.{position};
ghost use Rattle.std.specs.Option.{option_map};
ghost use Rattle.text.specs.Parts.{before, after, left, first_part, other_parts, has_none};

/// A run of bytes and the place up to which it has been read.
#[derive(Clone, Copy, Debug, PartialEq, Eq)]
pub(crate) struct Parts<'a, const MARK: u8> {
    pub(crate) bytes: &'a [u8],
    pub(crate) at: usize,
}

fn first_mark(bytes: &[u8], mark: u8) -> Option<usize>
    ensures { result ≡ position (λ x. x == mark) bytes.now }
{
    bytes.iter().position(|&byte| byte == mark)
}

// Where the first part ends: at the first mark, or at the end.
fn end_of_part(bytes: &[u8], mark: u8) -> usize
    ensures high { result ≤ length bytes.now }
    ensures part { take result bytes.now ≡ before mark bytes.now }
    ensures rest { left bytes.now (result + 1) ≡ after mark bytes.now }
{
    first_mark(bytes, mark).unwrap_or(bytes.len())
}

impl<'a, const MARK: u8> Parts<'a, MARK> {
    /// Past the end there is no part; an empty rest is one empty part.
    pub(crate) fn next(&mut self) -> Option<&'a [u8]>
        ensures part { option_map (λ x. x.now) result ≡ first_part MARK (left self.old.bytes.now self.old.at) }
        ensures rest { left self.new.bytes.now self.new.at ≡ other_parts MARK (left self.old.bytes.now self.old.at) }
        ensures bytes { self.new.bytes.now ≡ self.old.bytes.now }
        ensures onward { OnSome result (self.old.at < self.new.at) }
    {
        let rest = self.bytes.get(self.at..)?;
        let end = end_of_part(rest, MARK);
        self.at += end + 1;
        Some(&rest[..end])
    }

    /// Whether every part has been read.
    pub(crate) fn is_done(&self) -> bool
        ensures { result ≡ has_none (left self.now.bytes.now self.now.at) }
    {
        self.at > self.bytes.len()
    }
}
