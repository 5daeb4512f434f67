// What moves a part on: a message handed over, a stray act of a faulty seat, a seat woken.
ghost use Rattle.std.specs.Prelude.{◌≡◌};
ghost use Rattle.roster.specs.Moves.{Named, kind_number};

use crate::denial::Denial;

// Eight numbers, any of them; a kind that does not use a number ignores it.
#[derive(Clone, Copy, PartialEq, Eq, Debug)]
pub struct Move {
    // which part of a pile it is for
    pub address: u64,
    // a `MoveKind` as a number, or any other number
    pub kind: u64,
    pub from: u64,
    pub to: u64,
    // the letter's kind: 1 INIT, 2 ECHO, 3 READY
    pub letter: u64,
    pub origin: u64,
    pub slot: u64,
    pub code: u64,
}

#[derive(Clone, Copy, PartialEq, Eq, Debug)]
pub enum MoveKind {
    // an act of the faulty seat `from`
    Stray,
    // something handed to the sound seat `to`
    HandOver,
    // `to` is woken
    Wake,
}

impl From<MoveKind> for u64 {
    ghost from_gives = { λ kind n. n ≡ kind_number kind };

    fn from(kind: MoveKind) -> u64 {
        match kind {
            MoveKind::Stray => 1,
            MoveKind::HandOver => 2,
            MoveKind::Wake => 3,
        }
    }
}

impl TryFrom<u64> for MoveKind {
    type Error = Denial;

    ghost try_from_gives = { Named };

    fn try_from(number: u64) -> Result<MoveKind, Denial> {
        match number {
            1 => Ok(MoveKind::Stray),
            2 => Ok(MoveKind::HandOver),
            3 => Ok(MoveKind::Wake),
            _ => Err(Denial::NoSuchAddress),
        }
    }
}
