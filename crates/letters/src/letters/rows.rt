// The cells, once they are enough.
ghost use Rattle.std.specs.Prelude.{◌≡◌, true, false, MatchResult};
ghost use Rattle.broadcast.specs.Rows.{fits};
ghost use Rattle.letters.specs.Meanings.{cells_of, has_room};
ghost use Rattle.roster.specs.declared.denial.Denial.TheVariants.{IllMatched};

use crate::letters::Letters;
use crate::letters::make::cells_needed;
use broadcast::cell::Cell;
use roster::denial::Denial;
use roster::roster::Roster;

// A list that has a cell for each receiver, origin and slot.
#[derive(Clone, Copy)]
pub(super) struct Rows<'a> {
    pub(super) roster: Roster,
    pub(super) cells: &'a [Cell],
    ghost fit: { fits roster.size.n cells.now ≡ true },
}

impl Letters<'_> {
    // Whether the list has a cell for each receiver, origin and slot.
    pub(super) fn has_room(&self) -> bool
        ensures { result ≡ has_room self.now }
    {
        cells_needed(self.roster.size()) <= self.cells.len()
    }

    // The cells, if they are enough.
    pub(super) fn rows(&self) -> Result<Rows<'_>, Denial>
        ensures { MatchResult result (λ r. (has_room self.now ≡ true) × (r.roster ≡ self.now.roster) × (r.cells.now ≡ cells_of self.now)) (λ e. (has_room self.now ≡ false) × (e ≡ IllMatched)) }
    {
        if !self.has_room() {
            return Err(Denial::IllMatched);
        }
        let cells = &*self.cells;
        Ok(Rows {
            roster: self.roster,
            cells,
        })
    }
}
