// Who is still to be given the ruling.
ghost use Rattle.std.specs.Prelude.{◌≡◌, ◌==◌};
ghost use Rattle.roster.specs.Counting.{count};
ghost use Rattle.umpire.specs.Meaning.{owed};

use crate::umpire::Umpire;

impl Umpire {
    // Whether a sound seat was not given the ruling that there is.
    fn is_owed(&self, seat: u64) -> bool
        ensures { result ≡ owed self.now.roster self.now.ruling self.now.given seat }
    {
        self.ruling.is_some() && self.roster.is_sound(seat) && self.given_to(seat).is_none()
    }

    // Whether there is no such seat.
    pub(super) fn is_all_given(&self) -> bool
        ensures { result ≡ (count (owed self.now.roster self.now.ruling self.now.given) self.now.roster.size.n == 0) }
    {
        (1..self.roster.size().n() + 1).all(|seat| !self.is_owed(seat))
    }
}
