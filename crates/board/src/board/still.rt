// Whether all is handed over.
ghost use Rattle.std.specs.Prelude.{◌≡◌};
ghost use Rattle.board.specs.Meaning.{all_ten, handed, all_from, all_to};

use crate::board::Board;

impl Board {
    // Whether nothing is left to hand to a seat from an origin and slot.
    fn is_handed(&self, seat: u64, origin: u64, slot: u64) -> bool
        ensures { result ≡ handed self.now seat origin slot }
    {
        self.writing(origin, slot).is_none() || self.holding(seat, origin, slot).is_some()
    }

    // The same for both slots of an origin.
    fn has_all_from(&self, seat: u64, origin: u64) -> bool
        ensures { result ≡ all_from self.now seat origin }
    {
        self.is_handed(seat, origin, 1) && self.is_handed(seat, origin, 2)
    }

    // The same for all origins.
    fn has_all(&self, seat: u64) -> bool
        ensures { result ≡ all_ten (all_from self.now seat) }
    {
        (1..11).all(|origin| self.has_all_from(seat, origin))
    }

    // The same, if the seat is sound: nothing is handed to a faulty one.
    fn is_served(&self, seat: u64) -> bool
        ensures { result ≡ all_to self.now seat }
    {
        !self.roster.is_sound(seat) || self.has_all(seat)
    }

    // The same for all seats.
    pub(super) fn is_all_handed(&self) -> bool
        ensures { result ≡ all_ten (all_to self.now) }
    {
        (1..11).all(|seat| self.is_served(seat))
    }
}
