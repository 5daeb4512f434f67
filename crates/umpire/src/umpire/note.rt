// Noting a put, and ruling on it.
ghost use Rattle.std.specs.Prelude.{◌≡◌, true, false, is_ok};
ghost use Rattle.roster.specs.Checks.{answer};
ghost use Rattle.umpire.specs.Calls.{note_denial, Noted};

use crate::umpire::Umpire;
use crate::umpire::rules::ruled;
use roster::denial::Denial;
use roster::votes::set_seat;

impl Umpire {
    // A seat puts a code, once. A put is a sound seat's, a stray act a faulty one's.
    pub(super) fn note(&mut self, as_sound: bool, seat: u64, code: u64) -> Result<(), Denial>
        ensures value { result ≡ answer (note_denial self.old as_sound seat code) tt }
        ensures same { is_ok result ≡ false → self.new ≡ self.old }
        ensures after { is_ok result ≡ true → Noted self.old seat code self.new }
    {
        if !self.roster.has(seat) {
            return Err(Denial::OutOfRange);
        }
        if self.roster.is_sound(seat) != as_sound {
            return Err(Denial::FaultySeat);
        }
        if code > self.largest {
            return Err(Denial::CodeTooLarge);
        }
        if self.put_of(seat).is_some() {
            return Err(Denial::PutBefore);
        }
        self.touched = true;
        set_seat(&mut self.puts, seat, Some(code));
        self.ruling = ruled(self.roster.size(), &self.puts, code, self.ruling);
        Ok(())
    }
}
