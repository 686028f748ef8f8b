//! The number that bytes spell.

ghost use Rattle.std.specs.Prelude.{◌≡◌};
ghost use Rattle.text.specs.Numbers.{parse_number, with_digit, NumbersAreReadBack};

// The number with one more digit, unless the byte is none or the number leaves 32 bits.
fn with_digit(number: u32, byte: u8) -> Option<u32>
    ensures { result ≡ with_digit number byte }
{
    if !byte.is_ascii_digit() {
        return None;
    }
    number.checked_mul(10)?.checked_add(u32::from(byte - b'0'))
}

/// The number of up to 32 bits that decimal digits spell; leading zeros are allowed.
pub fn parse_number(field: &[u8]) -> Option<u32>
    ensures { result ≡ parse_number field.now }
{
    if field.is_empty() {
        return None;
    }
    // Not by `try_fold`: its result was not proved.
    let mut number = 0;
    for byte in field {
        number = with_digit(number, *byte)?;
    }
    Some(number)
}

/// What is written in decimal digits is read as the number that it was.
#[tactic(auto, using(crate::proofs::Spelling::numbers_read))]
pub fn numbers_are_read_back()
    ensures { NumbersAreReadBack }
{}

#[cfg(test)]
mod tests {
    use super::*;

    #[test]
    fn numbers_end_at_32_bits(rt: HostRuntime) {
        assert_eq!(rt; parse_number(b"0004294967295"), Some(4_294_967_295));
        assert_eq!(rt; parse_number(b"4294967296"), None);
        assert_eq!(rt; parse_number(b""), None);
        assert_eq!(rt; parse_number(b"7\r"), None);
    }
}
