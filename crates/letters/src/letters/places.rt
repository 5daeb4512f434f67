// Where the cells stand, and reading one. Receiver, origin and slot come one by one, as a carrier is asked by any three numbers.
ghost use Rattle.std.specs.Prelude.{◌≡◌, ◌<◌, true, false, length, None, MatchOption};
ghost use Rattle.broadcast.specs.Rows.{place, within};
ghost use Rattle.letters.specs.Rows.{row_in};
ghost use Rattle.roster.specs.Checks.{answer, check};
ghost use Rattle.roster.specs.Rosters.{sound};
ghost use Rattle.roster.specs.declared.denial.Denial.TheVariants.{FaultySeat, OutOfRange};

use crate::letters::rows::Rows;
use broadcast::cell::Cell;
use carrier::slot::is_slot;
use roster::denial::Denial;

impl Rows<'_> {
    // Whether there is such a cell.
    pub(super) fn is_within(&self, receiver: u64, origin: u64, slot: u64) -> bool
        ensures { result ≡ within self.now.roster.size.n receiver origin slot }
    {
        self.roster.has(receiver) && self.roster.has(origin) && is_slot(slot)
    }

    // The cells of a slot stand together, and in it those of an origin.
    #[tactic(auto, using(broadcast::proofs::Rows::place_low))]
    pub(super) fn place_of(&self, receiver: u64, origin: u64, slot: u64) -> usize
        requires { within self.now.roster.size.n receiver origin slot ≡ true }
        ensures value { result ≡ place self.now.roster.size.n receiver origin slot }
        ensures low { result < length self.now.cells.now }
    {
        let n = self.roster.size().n();
        let line = (slot - 1) * n + (origin - 1);
        (line * n + (receiver - 1)) as usize
    }

    // What the receiver counted, sent and holds of an origin and slot.
    #[tactic(auto, using(broadcast::proofs::Rows::row_at))]
    pub(super) fn cell(&self, receiver: u64, origin: u64, slot: u64) -> Option<&Cell>
        ensures { MatchOption result (within self.now.roster.size.n receiver origin slot ≡ false) (λ c. (within self.now.roster.size.n receiver origin slot ≡ true) × (c.now ≡ row_in self.now origin slot receiver)) }
    {
        if !self.is_within(receiver, origin, slot) {
            return None;
        }
        Some(&self.cells[self.place_of(receiver, origin, slot)])
    }

    // The checks of a question or a put: that there is such a cell, then that the seat is sound.
    pub(super) fn check(&self, seat: u64, origin: u64, slot: u64) -> Result<(), Denial>
        ensures { result ≡ answer (check (within self.now.roster.size.n seat origin slot) OutOfRange (check (sound self.now.roster seat) FaultySeat None)) tt }
    {
        if !self.is_within(seat, origin, slot) {
            return Err(Denial::OutOfRange);
        }
        self.roster.check_sound(seat)
    }
}
