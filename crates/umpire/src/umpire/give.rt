// Giving the ruling to a seat.
ghost use Rattle.std.specs.Prelude.{◌≡◌, true, false, is_ok};
ghost use Rattle.roster.specs.Checks.{answer};
ghost use Rattle.umpire.specs.Calls.{give_denial, Given};

use crate::umpire::Umpire;
use roster::denial::Denial;
use roster::votes::set_seat;

impl Umpire {
    // The sound seat `to` is given the ruling, once.
    pub(super) fn give(&mut self, to: u64) -> Result<(), Denial>
        ensures value { result ≡ answer (give_denial self.old to) tt }
        ensures same { is_ok result ≡ false → self.new ≡ self.old }
        ensures after { is_ok result ≡ true → Given self.old to self.new }
    {
        self.roster.check_sound(to)?;
        if self.ruling.is_none() {
            return Err(Denial::NothingDue);
        }
        if self.given_to(to).is_some() {
            return Err(Denial::HandedBefore);
        }
        self.touched = true;
        set_seat(&mut self.given, to, self.ruling);
        Ok(())
    }
}
