// Whether nothing is on its way.
ghost use Rattle.std.specs.Prelude.{◌≡◌, not, ◌||◌};
ghost use Rattle.broadcast.specs.Rules.{handed};
ghost use Rattle.broadcast.specs.Stills.{handed_to, origin_still, row_still, still};
ghost use Rattle.letters.specs.Rows.{row_in};
ghost use Rattle.roster.specs.Rosters.{sound};

use crate::letters::rows::Rows;
use broadcast::cell::Cell;

impl Rows<'_> {
    // Whether all that a sender sent, if it is sound, was counted in the receiver's cell.
    #[tactic(auto, using(broadcast::proofs::Rows::handed_out))]
    fn is_handed(&self, here: &Cell, sender: u64, origin: u64, slot: u64) -> bool
        ensures { result ≡ (not (sound self.now.roster sender) || handed sender (row_in self.now origin slot sender) here.now) }
    {
        if !self.roster.is_sound(sender) {
            return true;
        }
        let Some(there) = self.cell(sender, origin, slot) else {
            return true;
        };
        here.has_counted_all(sender, there)
    }

    // Whether the receiver, if it is sound, has counted all that sound seats sent.
    fn is_served(&self, receiver: u64, origin: u64, slot: u64) -> bool
        ensures { result ≡ handed_to self.now.roster (row_in self.now origin slot) receiver }
    {
        if !self.roster.is_sound(receiver) {
            return true;
        }
        let Some(here) = self.cell(receiver, origin, slot) else {
            return true;
        };
        let n = self.roster.size().n();
        (1..n + 1).all(|sender| self.is_handed(here, sender, origin, slot))
    }

    fn is_row_still(&self, origin: u64, slot: u64) -> bool
        ensures { result ≡ row_still self.now.roster (row_in self.now origin slot) }
    {
        let n = self.roster.size().n();
        (1..n + 1).all(|receiver| self.is_served(receiver, origin, slot))
    }

    fn is_origin_still(&self, origin: u64) -> bool
        ensures { result ≡ origin_still self.now.roster self.now.cells.now origin }
    {
        self.is_row_still(origin, 1) && self.is_row_still(origin, 2)
    }

    // Whether all that sound seats sent has been counted by all sound seats.
    pub(super) fn is_quiet(&self) -> bool
        ensures { result ≡ still self.now.roster self.now.cells.now }
    {
        let n = self.roster.size().n();
        (1..n + 1).all(|origin| self.is_origin_still(origin))
    }
}
