// The fields of a letter that was read, each over the bytes of its content.
ghost use Rattle.std.specs.Prelude.{◌≡◌, ◌+◌, ◌*◌, ◌%◌, ◌^◌};
ghost use Rattle.wire.specs.Fields.{letter_of, number_in};
ghost use Rattle.wire.specs.Letters.{value};

use crate::letter::Letter;

#[derive(Clone, Copy, Debug)]
pub enum Field<'a> {
    Kind(&'a [u8]),
    Origin(&'a [u8]),
    Slot(&'a [u8]),
    Code(&'a [u8]),
}

#[derive(Clone, Copy, Debug)]
pub struct Fields<'a> {
    pub kind: Field<'a>,
    pub origin: Field<'a>,
    pub slot: Field<'a>,
    pub code: Field<'a>,
}

// The number that bytes write, where `sum` is that of the bytes before the last.
fn one_more(sum: u64, byte: u8) -> u64
    ensures { result ≡ (sum * 256 + byte) % 2 ^ 64 }
{
    sum.wrapping_mul(256).wrapping_add(u64::from(byte))
}

// Bytes as a number, high byte first. Of a number too large for the type the low bits are kept.
fn value_of(content: &[u8]) -> u64
    ensures { result ≡ value content.now % 2 ^ 64 }
{
    let mut sum: u64 = 0;
    for byte in content {
        sum = one_more(sum, *byte);
    }
    sum
}

impl Field<'_> {
    // The content as a number.
    pub fn number(&self) -> u64
        ensures { result ≡ number_in self.now }
    {
        match self {
            Field::Kind(content)
            | Field::Origin(content)
            | Field::Slot(content)
            | Field::Code(content) => value_of(content),
        }
    }
}

impl Fields<'_> {
    // The letter whose numbers the fields hold.
    pub fn letter(&self) -> Letter
        ensures { result ≡ letter_of self.now }
    {
        Letter {
            kind: self.kind.number(),
            origin: self.origin.number(),
            slot: self.slot.number(),
            code: self.code.number(),
        }
    }
}
