// What stands on a board.
ghost use Rattle.std.specs.Prelude.{◌≡◌, true};
ghost use Rattle.board.specs.Places.{is_place, writing, holding};
ghost use Rattle.board.specs.Rules.{has};

use crate::board::Board;
use crate::board::places::{is_held_place, is_place, of_held, of_written};
use carrier::slot::is_slot;

impl Board {
    // Whether a seat may write for a slot.
    pub(super) fn has(&self, seat: u64, slot: u64) -> bool
        ensures value { result ≡ has self.now seat slot }
        ensures place { result ≡ true → is_place seat slot ≡ true }
    {
        self.roster.has(seat) && is_slot(slot)
    }

    // What a seat wrote for a slot.
    pub(super) fn writing(&self, seat: u64, slot: u64) -> Option<u64>
        ensures { result ≡ writing self.now.written seat slot }
    {
        if !is_place(seat, slot) {
            return None;
        }
        self.written[of_written(seat, slot)]
    }

    // What a seat was handed from an origin and slot.
    pub(super) fn holding(&self, seat: u64, origin: u64, slot: u64) -> Option<u64>
        ensures { result ≡ holding self.now.held seat origin slot }
    {
        if !is_held_place(seat, origin, slot) {
            return None;
        }
        self.held[of_held(seat, origin, slot)]
    }
}
