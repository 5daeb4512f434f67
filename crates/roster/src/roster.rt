// Who takes part: n seats, and which of them are faulty.
ghost use Rattle.std.specs.Prelude.{◌^◌, ◌<◌, ◌≤◌};
ghost use Rattle.roster.specs.Counting.{count, member};

use crate::size::Size;

// A controller's place is a seat, 1 to n. The seats of the faulty set (bit k - 1 stands for seat k) may do anything;
// all others are sound (the field says correct): they keep to the rules.
#[derive(Clone, Copy, PartialEq, Eq, Debug)]
pub struct Roster {
    size: Size,
    faulty: u16,
    ghost inside: { faulty < 2 ^ size.n },
    ghost bounded: { count (member faulty) size.n ≤ size.t },
}

pub mod make;
