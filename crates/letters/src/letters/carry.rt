// Letters as a carrier.
ghost use Rattle.std.specs.Prelude.{◌≡◌, true, false, is_ok, Err};
ghost use Rattle.broadcast.proofs.Laws as laws;
ghost use Rattle.broadcast.specs.Meanings.{meaning};
ghost use Rattle.carrier.specs.Views.{Moved, Put, holds_denial, put_denial};
ghost use Rattle.letters.specs.Meanings.{cells_of, due_in, view_of};
ghost use Rattle.letters.specs.Steps.{Steps, after_move, after_put, move_answer};
ghost use Rattle.roster.specs.Checks.{answer};
ghost use Rattle.roster.specs.declared.denial.Denial.TheVariants.{IllMatched};

use crate::letters::Letters;
use carrier::carrier::Carrier;
use roster::denial::Denial;
use roster::moves::Move;
use roster::roster::Roster;

impl Carrier for Letters<'_> {
    ghost view = { λ s. meaning s.roster s.cells.now s.touched };

    ghost ok = { λ s. laws.Invariant s.roster s.cells.now };

    ghost fresh = { λ s. laws.fresh s.roster s.cells.now s.touched s.clear };

    ghost lawful = { λ s. laws.lawful s.roster s.cells.now s.touched s.clear };

    ghost steps = { λ s by r e. Steps s by r e };

    // The seat sends INIT.
    #[tactic(auto, using(broadcast::proofs::Rows::row_at))]
    fn put(&mut self, seat: u64, slot: u64, code: u64) -> Result<(), Denial>
        ensures value { result ≡ answer (put_denial (view_of self.old) seat slot) tt }
        ensures same { is_ok result ≡ false → self.new ≡ self.old }
        ensures after { is_ok result ≡ true → Put (view_of self.old) seat slot code (view_of self.new) }
        ensures keeps { laws.Invariant self.old.roster (cells_of self.old) → laws.Invariant self.new.roster (cells_of self.new) }
        ensures cells { is_ok result ≡ true → cells_of self.new ≡ after_put self.old seat slot code }
        ensures name { self.new.cells.ghost_name ≡ self.old.cells.ghost_name }
    {
        let rows = self.rows()?;
        rows.check(seat, seat, slot)?;
        let i = rows.place_of(seat, seat, slot);
        if rows.cells[i].put.is_some() {
            return Err(Denial::PutBefore);
        }
        self.touched = true;
        let cells = &mut *self.cells;
        cells[i].send_init(code);
        Ok(())
    }

    // The receiver counts the letter that is due, and does what the rules ask.
    fn step(&mut self, by: Move) -> Result<(), Denial>
        ensures steps { Steps self.old by result self.new }
        ensures matched { (view_of self.old).fixed.matched ≡ false → result ≡ Err IllMatched }
        ensures same { is_ok result ≡ false → self.new ≡ self.old }
        ensures after { is_ok result ≡ true → Moved (view_of self.old) (view_of self.new) }
        ensures keeps { laws.Invariant self.old.roster (cells_of self.old) → laws.Invariant self.new.roster (cells_of self.new) }
        ensures value { result ≡ move_answer (due_in self.old by) }
        ensures cells { cells_of self.new ≡ after_move self.old by (due_in self.old by) }
        ensures name { self.new.cells.ghost_name ≡ self.old.cells.ghost_name }
    {
        let rows = self.rows()?;
        let letter = rows.letter_due(by)?;
        let i = rows.place_of(by.to, by.origin, by.slot);
        self.touched = true;
        let size = self.roster.size();
        let cells = &mut *self.cells;
        cells[i].count(size, letter);
        Ok(())
    }

    #[tactic(auto, using(broadcast::proofs::Rows::row_at))]
    fn holds(&self, seat: u64, origin: u64, slot: u64) -> Result<Option<u64>, Denial> {
        let rows = self.rows()?;
        rows.check(seat, origin, slot)?;
        Ok(rows.cells[rows.place_of(seat, origin, slot)].held)
    }

    fn is_still(&self) -> bool {
        self.rows().is_ok_and(|rows| rows.is_quiet())
    }

    fn roster(&self) -> Roster {
        self.roster
    }

    fn is_matched(&self) -> bool {
        self.has_room()
    }

    fn is_untouched(&self) -> bool {
        !(self.has_room() && self.touched)
    }
}
