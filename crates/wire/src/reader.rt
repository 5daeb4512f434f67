// Reads bytes as a letter.
ghost use Rattle.std.specs.Prelude.{◌≡◌, ◌+◌, ◌≤◌, length, Decides, MatchResult};
ghost use Rattle.wire.specs.Fields.{letter_of, Cut, Parts, Refused};
ghost use Rattle.wire.specs.Letters.{bytes_of, IsLetter, Longest, Proper, WordWithin};

use crate::field::{Field, Fields};
use crate::letter::{LETTER_LEN, Letter};
use roster::denial::Denial;

// How many bytes stand before the code's, whose eight bytes may be any.
const HEAD_LEN: usize = 15;

// The smallest and the largest byte that a letter has at each place before its code. Two arrays and
// not one of pairs, of whose elements nothing would be known.
const LOW: [u8; HEAD_LEN] = [1, 0, 1, 1, 2, 0, 1, 1, 3, 0, 1, 1, 4, 0, 8];

const HIGH: [u8; HEAD_LEN] = [1, 0, 1, 3, 2, 0, 1, 10, 3, 0, 1, 2, 4, 0, 8];

// Whether four bytes, as one number with the high byte first, are in a range.
fn word_within(bytes: &[u8], at: usize, low: u32, high: u32) -> bool
    requires { at + 4 ≤ length bytes.now }
    ensures { Decides result (WordWithin bytes.now at low high) }
{
    let word = u32::from_be_bytes([bytes[at], bytes[at + 1], bytes[at + 2], bytes[at + 3]]);
    low <= word && word <= high
}

// A field's tag, length and first byte of content are compared as one number, which is what makes this fast.
fn is_letter(bytes: &[u8]) -> bool
    ensures { Decides result (IsLetter bytes.now) }
{
    if bytes.len() != LETTER_LEN {
        return false;
    }
    if !word_within(bytes, 0, 0x0100_0101, 0x0100_0103) {
        return false;
    }
    if !word_within(bytes, 4, 0x0200_0101, 0x0200_010A) {
        return false;
    }
    if !word_within(bytes, 8, 0x0300_0101, 0x0300_0102) {
        return false;
    }
    word_within(bytes, 12, 0x0400_0800, 0x0400_08FF)
}

// The length of the longest front that begins some letter.
fn front(bytes: &[u8]) -> usize
    ensures { Longest bytes.now result }
{
    let most = bytes.len().min(LETTER_LEN);
    for (place, byte) in bytes[..most.min(HEAD_LEN)].iter().enumerate() {
        if *byte < LOW[place] || *byte > HIGH[place] {
            return place;
        }
    }
    most
}

// The fields of a letter, each over its part of the bytes.
fn cut(bytes: &[u8]) -> Fields<'_>
    requires { 23 ≤ length bytes.now }
    ensures { Cut bytes.now result }
{
    Fields {
        kind: Field::Kind(&bytes[3..4]),
        origin: Field::Origin(&bytes[7..8]),
        slot: Field::Slot(&bytes[11..12]),
        code: Field::Code(&bytes[15..23]),
    }
}

// The letter that the bytes are, as its fields, or the length of their longest front that begins a letter.
pub fn read(bytes: &[u8]) -> Result<Fields<'_>, Denial>
    ensures cases { MatchResult result (λ fs. Parts bytes.now fs) (λ e. Refused bytes.now e) }
    ensures back { (l : Letter) → Proper l → bytes.now ≡ bytes_of l → MatchResult result (λ fs. letter_of fs ≡ l) (λ _. ⊥) }
{
    if is_letter(bytes) {
        Ok(cut(bytes))
    } else {
        Err(Denial::NoLetter(front(bytes)))
    }
}
