// A board is a carrier.
ghost use Rattle.std.specs.Prelude.{◌≡◌, true, false, is_ok, Err};
ghost use Rattle.board.specs.Laws.{fresh_kept, board_lawful};
ghost use Rattle.board.specs.Meaning.{board_view, Kept};
ghost use Rattle.board.specs.Rules.{step_denial, Steps, Written, Handed};
ghost use Rattle.carrier.specs.Views.{put_denial, Put, Moved};
ghost use Rattle.roster.specs.Checks.{answer};
ghost use Rattle.roster.specs.declared.denial.Denial.TheVariants.{IllMatched};

use crate::board::Board;
use carrier::carrier::Carrier;
use roster::denial::Denial;
use roster::moves::{Move, MoveKind};
use roster::roster::Roster;

impl Carrier for Board {
    ghost view = { board_view };

    ghost ok = { Kept };

    ghost fresh = { fresh_kept };

    ghost lawful = { board_lawful };

    ghost steps = { Steps };

    fn put(&mut self, seat: u64, slot: u64, code: u64) -> Result<(), Denial>
        ensures value { result ≡ answer (put_denial (board_view self.old) seat slot) tt }
        ensures same { is_ok result ≡ false → self.new ≡ self.old }
        ensures after { is_ok result ≡ true → Put (board_view self.old) seat slot code (board_view self.new) }
        ensures keeps { Kept self.old → Kept self.new }
        ensures exact { is_ok result ≡ true → Written self.old seat slot code self.new }
    {
        self.write(true, seat, slot, code)
    }

    fn step(&mut self, by: Move) -> Result<(), Denial>
        ensures steps { Steps self.old by result self.new }
        ensures matched { (board_view self.old).fixed.matched ≡ false → result ≡ Err IllMatched }
        ensures same { is_ok result ≡ false → self.new ≡ self.old }
        ensures after { is_ok result ≡ true → Moved (board_view self.old) (board_view self.new) }
        ensures keeps { Kept self.old → Kept self.new }
        ensures value { result ≡ answer (step_denial self.old by) tt }
        ensures stray { is_ok result ≡ true → by.kind ≡ 1 → Written self.old by.from by.slot by.code self.new }
        ensures handed { is_ok result ≡ true → by.kind ≡ 2 → Handed self.old by.from by.to by.slot self.new }
    {
        match MoveKind::try_from(by.kind)? {
            MoveKind::Stray => self.write(false, by.from, by.slot, by.code),
            MoveKind::HandOver => self.hand(by.from, by.to, by.slot),
            MoveKind::Wake => Err(Denial::NoSuchAddress),
        }
    }

    fn holds(&self, seat: u64, origin: u64, slot: u64) -> Result<Option<u64>, Denial> {
        if !self.has(origin, slot) {
            return Err(Denial::OutOfRange);
        }
        self.roster.check_sound(seat)?;
        Ok(self.holding(seat, origin, slot))
    }

    fn is_still(&self) -> bool {
        self.is_all_handed()
    }

    fn roster(&self) -> Roster {
        self.roster
    }

    fn is_matched(&self) -> bool {
        true
    }

    fn is_untouched(&self) -> bool {
        !self.touched
    }
}
