// Why a call was denied.
ghost use Rattle.std.specs.Prelude.{◌≡◌, Some};
ghost use Rattle.roster.specs.Denials.{number_of, words_of, text_of};

use std::fmt;

// A refusal. The cases stand in the order in which a call makes its checks, and a denied call has changed nothing.
#[derive(Clone, Copy, PartialEq, Eq, Debug)]
pub enum Denial {
    // n is not 1 to 10, or 3t is not below n
    RosterSize,
    // the faulty set has a seat above n, or too many seats
    FaultySet,
    // the part cannot work with what it was made of
    IllMatched,
    // no part, hall or kind of move goes by that number
    NoSuchAddress,
    // a seat, a letter's kind or a slot is out of range, or an INIT names an origin other than its sender
    OutOfRange,
    // a faulty seat where a sound one is asked for, or a sound sender of a stray act
    FaultySeat,
    // a part of a figure is out of range, or an order's two tanks are one
    FigureRange,
    // the code is above the agreement's largest
    CodeTooLarge,
    // one put for a seat is all there is (in a carrier: one for each slot)
    PutBefore,
    // nothing is there to be handed over, or to be done by the seat that is woken
    NothingDue,
    // the receiver has counted that letter, or was handed the thing, before
    HandedBefore,
    // the bytes are no letter: their longest front that begins one has this length
    NoLetter(usize),
    // the buffer is shorter than a letter
    ShortBuffer,
}

impl Denial {
    // The refusal's number, 1 to 13: what C is answered, and people read.
    pub fn number(&self) -> u8
        ensures { result ≡ number_of self.now }
    {
        match self {
            Denial::RosterSize => 1,
            Denial::FaultySet => 2,
            Denial::IllMatched => 3,
            Denial::NoSuchAddress => 4,
            Denial::OutOfRange => 5,
            Denial::FaultySeat => 6,
            Denial::FigureRange => 7,
            Denial::CodeTooLarge => 8,
            Denial::PutBefore => 9,
            Denial::NothingDue => 10,
            Denial::HandedBefore => 11,
            Denial::NoLetter(_) => 12,
            Denial::ShortBuffer => 13,
        }
    }

    // The refusal in words.
    fn words(&self) -> &'static str
        ensures { result.now ≡ words_of self.now }
    {
        match self {
            Denial::RosterSize => "n is not 1 to 10, or 3t is not below n",
            Denial::FaultySet => "the faulty set has a seat beyond n, or over t seats",
            Denial::IllMatched => "the part is ill-matched",
            Denial::NoSuchAddress => "no such address, hall or kind",
            Denial::OutOfRange => "a seat, letter kind, slot or origin is out of range",
            Denial::FaultySeat => "a faulty seat, or a sound sender of a stray act",
            Denial::FigureRange => "a figure is out of its range",
            Denial::CodeTooLarge => "the code is above the largest",
            Denial::PutBefore => "the seat has put before",
            Denial::NothingDue => "nothing to hand over, or nothing due",
            Denial::HandedBefore => "counted or handed over before",
            Denial::NoLetter(_) => "the bytes are no letter",
            Denial::ShortBuffer => "the buffer is shorter than 23 bytes",
        }
    }
}

// `denied N: words`, and for bytes that are no letter `denied 12 at PLACE: words`.
impl fmt::Display for Denial {
    ghost output = { λ d. Some (text_of d) };

    fn fmt<W: fmt::Write>(&self, f: &mut fmt::Formatter<W>) -> fmt::Result {
        let number = self.number();
        let words = self.words();
        if let Denial::NoLetter(place) = self {
            return write!(f, "denied {number} at {place}: {words}");
        }
        write!(f, "denied {number}: {words}")
    }
}
