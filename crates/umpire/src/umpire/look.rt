// What an umpire was told, and whom it told.
ghost use Rattle.std.specs.Prelude.{◌≡◌};
ghost use Rattle.roster.specs.Votes.{by_seat};
ghost use Rattle.umpire.specs.Calls.{has_choice};

use crate::umpire::Umpire;
use roster::decision::Decision;
use roster::votes::said_by;

impl Umpire {
    // Whether there is more than one code to choose from.
    pub(super) fn has_choice(&self) -> bool
        ensures { result ≡ has_choice self.now.largest }
    {
        1 <= self.largest
    }

    // What a seat has put.
    pub(super) fn put_of(&self, seat: u64) -> Option<u64>
        ensures { result ≡ by_seat self.now.puts seat }
    {
        said_by(&self.puts, seat)
    }

    // What a seat was given.
    pub(super) fn given_to(&self, seat: u64) -> Option<Decision>
        ensures { result ≡ by_seat self.now.given seat }
    {
        said_by(&self.given, seat)
    }
}
