// Bytes in hex: two digits a byte, the high one first.
ghost use Rattle.std.specs.Prelude.{◌≡◌, ◌%◌, ◌<◌, length, IfOk, Some, Decides};
ghost use Rattle.script.specs.Hex.{hex_of, HexDigits, InHex, Decoded, ReadsBack};
ghost use Rattle.script.specs.declared.hex.NoHex.TheVariants.{Memory};
ghost use Rattle.std.specs.Char.{digit_value};

use std::alloc::{AllocError, Global};
use std::fmt;

// Bytes to print, in upper-case digits.
#[derive(Clone, Copy)]
pub struct Hex<'a>(pub &'a [u8]);

impl fmt::Display for Hex<'_> {
    ghost output = { λ h. Some (hex_of h.0.now) };

    fn fmt<W: fmt::Write>(&self, f: &mut fmt::Formatter<W>) -> fmt::Result {
        for &b in self.0 {
            write!(f, "{b:02X}")?;
        }
        Ok(())
    }
}

// Why a text is no bytes in hex.
#[derive(Clone, Copy, PartialEq, Eq, Debug)]
pub enum NoHex {
    // a byte of it is no digit
    Digit,
    // its digits are odd in number
    Odd,
    // there is no memory for the bytes
    Memory,
}

impl From<AllocError> for NoHex {
    ghost from_gives = { λ _ e. e ≡ Memory };

    fn from(_e: AllocError) -> NoHex {
        NoHex::Memory
    }
}

// The bytes of a text in hex, in digits of either case. The text is judged before memory is asked for.
pub fn decode(heap: Global, text: &str) -> Result<Vec<u8>, NoHex>
    ensures cases { Decoded text.now result }
    ensures back { ReadsBack text.now result }
{
    let digits = text.as_bytes();
    if !all_digits(digits) {
        return Err(NoHex::Digit);
    }
    if digits.len() % 2 == 1 {
        return Err(NoHex::Odd);
    }
    Ok(paired(heap, digits)?)
}

// Whether each byte is a digit of base 16.
fn all_digits(text: &[u8]) -> bool
    ensures value { Decides result (HexDigits text.now) }
{
    text.iter().all(|b| char::from(*b).is_digit(16))
}

// Each two digits as a byte.
#[tactic(auto, using(crate::proofs::Pairs::pair_at))]
fn paired(heap: Global, digits: &[u8]) -> Result<Vec<u8>, AllocError>
    requires digits { HexDigits digits.now }
    requires even { length digits.now % 2 ≡ 0 }
    ensures made { IfOk result (λ v. InHex digits.now v.items) }
{
    let mut bytes = Vec::with_capacity(heap, digits.len() / 2)?;
    let (pairs, _) = digits.as_chunks::<2>();
    for [high, low] in pairs {
        bytes.push(16 * value(*high) + value(*low))?;
    }
    Ok(bytes)
}

// What a digit or a letter stands for in bases up to 36, and 36 for any other byte.
fn value(digit: u8) -> u8
    ensures value { result ≡ digit_value digit }
{
    char::from(digit)
        .to_digit(36)
        .map_or(36, |value| value as u8)
}

#[cfg(test)]
mod tests {
    use super::*;
    use std::test::Fail;

    #[test]
    fn two_digits_are_a_byte(rt: HostRuntime) -> Result<(), Fail> {
        let bytes = decode(rt.alloc(), "01aBFF")?;
        assert!(rt; bytes.as_slice() == [0x01, 0xab, 0xff].as_slice());
        assert_eq!(rt;
            Hex(bytes.as_slice()).to_string(rt.alloc())?.as_str(),
            "01ABFF"
        );
        let none = decode(rt.alloc(), "")?;
        assert!(rt; none.is_empty());
        Ok(())
    }

    #[test]
    fn other_texts_are_refused(rt: HostRuntime) {
        assert_eq!(rt; decode(rt.alloc(), "0").err(), Some(NoHex::Odd));
        assert_eq!(rt; decode(rt.alloc(), "0g").err(), Some(NoHex::Digit));
    }
}
