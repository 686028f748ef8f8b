//! The fields of a line, parted by tabs.

ghost use Rattle.std.specs.Prelude.{◌≡◌, ◌+◌, ◌-◌, Some, length};
ghost use Rattle.std.specs.Iterator.{at_most};
ghost use Rattle.std.specs.Option.{option_map};
ghost use Rattle.text.specs.Parts.{unread, first_field, other_fields, first_number, has_none};

use crate::bytes::parse_number;
use crate::parts::Parts;

/// A line and the place up to which it has been read.
#[derive(Clone, Copy, Debug, PartialEq, Eq)]
pub struct Fields<'a> {
    parts: Parts<'a, b'\t'>,
}

impl<'a> Fields<'a> {
    /// All fields of the line, from its first.
    pub fn new(line: &'a [u8]) -> Fields<'a>
        ensures { unread result ≡ Some line.now }
    {
        Fields {
            parts: Parts { bytes: line, at: 0 },
        }
    }

    /// The number in the next field, if one stands there.
    pub fn number(&mut self) -> Option<u32>
        ensures number { result ≡ first_number (unread self.old) }
        ensures rest { unread self.new ≡ other_fields (unread self.old) }
    {
        parse_number(self.next()?)
    }

    /// Whether every field has been read.
    pub fn is_done(&self) -> bool
        ensures { result ≡ has_none (unread self.now) }
    {
        self.parts.is_done()
    }
}

impl<'a> Iterator for Fields<'a> {
    type Item = &'a [u8];

    ghost next_gives = { λ s r t. (option_map (λ x. x.now) r ≡ first_field (unread s))
        × (unread t ≡ other_fields (unread s)) };

    ghost remaining = { λ s. at_most (length s.parts.bytes.now + 1 - s.parts.at) };

    fn next(&mut self) -> Option<&'a [u8]> {
        self.parts.next()
    }
}

#[cfg(test)]
mod tests {
    use super::*;

    #[test]
    fn a_last_tab_opens_an_empty_field(rt: HostRuntime) {
        let mut fields = Fields::new(b"7\t");
        assert_eq!(rt; fields.number(), Some(7));
        assert!(rt; !fields.is_done());
        assert_eq!(rt; fields.number(), None);
        assert!(rt; fields.is_done());
    }
}
