// An umpire is an agreement.
ghost use Rattle.std.specs.Prelude.{◌≡◌, true, false, is_ok};
ghost use Rattle.agreement.specs.Views.{put_denial, Put};
ghost use Rattle.roster.specs.Checks.{answer};
ghost use Rattle.umpire.specs.Calls.{Noted, Steps};
ghost use Rattle.umpire.specs.Kept.{Kept};
ghost use Rattle.umpire.specs.Laws.{fresh_kept, umpire_lawful};
ghost use Rattle.umpire.specs.Meaning.{umpire_view};

use crate::umpire::Umpire;
use agreement::agreement::Agreement;
use roster::decision::Decision;
use roster::denial::Denial;
use roster::moves::{Move, MoveKind};
use roster::roster::Roster;

impl Agreement for Umpire {
    ghost view = { umpire_view };

    ghost ok = { Kept };

    ghost fresh = { fresh_kept };

    ghost lawful = { umpire_lawful };

    ghost steps = { Steps };

    fn put(&mut self, seat: u64, code: u64) -> Result<(), Denial>
        ensures value { result ≡ answer (put_denial (umpire_view self.old) seat code) tt }
        ensures same { is_ok result ≡ false → self.new ≡ self.old }
        ensures after { is_ok result ≡ true → Put (umpire_view self.old) seat code (umpire_view self.new) }
        ensures keeps { Kept self.old → Kept self.new }
        ensures exact { is_ok result ≡ true → Noted self.old seat code self.new }
    {
        if !self.has_choice() {
            return Err(Denial::IllMatched);
        }
        self.note(true, seat, code)
    }

    fn step(&mut self, by: Move) -> Result<(), Denial> {
        if !self.has_choice() {
            return Err(Denial::IllMatched);
        }
        if by.address != 0 {
            return Err(Denial::NoSuchAddress);
        }
        match MoveKind::try_from(by.kind)? {
            MoveKind::Stray => self.note(false, by.from, by.code),
            MoveKind::HandOver => self.give(by.to),
            MoveKind::Wake => Err(Denial::NoSuchAddress),
        }
    }

    fn decision(&self, seat: u64) -> Result<Option<Decision>, Denial> {
        if !self.has_choice() {
            return Err(Denial::IllMatched);
        }
        self.roster.check_sound(seat)?;
        Ok(self.given_to(seat))
    }

    fn is_still(&self) -> bool {
        self.has_choice() && self.is_all_given()
    }

    fn roster(&self) -> Roster {
        self.roster
    }

    fn largest(&self) -> u64 {
        self.largest
    }

    fn is_plain(&self) -> bool {
        self.largest == 1
    }

    fn is_matched(&self) -> bool {
        self.has_choice()
    }

    fn is_untouched(&self) -> bool {
        !self.has_choice() || !self.touched
    }
}
