// Making a roster, and asking it.
ghost use Rattle.std.specs.Prelude.{◌≡◌, Some, None, MatchResult};
ghost use Rattle.roster.specs.Checks.{answer};
ghost use Rattle.roster.specs.Counting.{is_seat};
ghost use Rattle.roster.specs.Rosters.{bounded, roster_denial, same_roster, sound, sound_denial};

use crate::denial::Denial;
use crate::roster::Roster;
use crate::size::Size;

// Whether a set names no seat above n, and at most t seats.
fn is_bounded(size: Size, faulty: u64) -> bool
    ensures { result ≡ bounded size.n size.t faulty }
{
    faulty < 1 << size.n() && u64::from(faulty.count_ones()) <= size.t()
}

impl Roster {
    // Any three numbers: a roster, or the refusal of the first check that they fail.
    pub fn new(n: u64, t: u64, faulty: u64) -> Result<Roster, Denial>
        ensures cases { MatchResult result (λ x. (roster_denial n t faulty ≡ None) × (x.size.n ≡ n) × (x.size.t ≡ t) × (x.faulty ≡ faulty)) (λ e. roster_denial n t faulty ≡ Some e) }
    {
        let size = Size::new(n, t)?;
        if !is_bounded(size, faulty) {
            return Err(Denial::FaultySet);
        }
        Ok(Roster {
            size,
            faulty: faulty as u16,
        })
    }

    pub fn size(&self) -> Size
        ensures { result ≡ self.now.size }
    {
        self.size
    }

    pub fn faulty(&self) -> u16
        ensures { result ≡ self.now.faulty }
    {
        self.faulty
    }

    // Whether a number is a seat's.
    pub fn has(&self, seat: u64) -> bool
        ensures { result ≡ is_seat self.now.size.n seat }
    {
        1 <= seat && seat <= self.size.n()
    }

    // Whether a number is a sound seat's.
    pub fn is_sound(&self, seat: u64) -> bool
        ensures { result ≡ sound self.now seat }
    {
        self.has(seat) && (self.faulty >> (seat - 1)) % 2 == 0
    }

    // The checks of a seat that has to be sound: that it is a seat, then that it is sound.
    pub fn check_sound(&self, seat: u64) -> Result<(), Denial>
        ensures { result ≡ answer (sound_denial self.now seat None) tt }
    {
        if !self.has(seat) {
            return Err(Denial::OutOfRange);
        }
        if !self.is_sound(seat) {
            return Err(Denial::FaultySeat);
        }
        Ok(())
    }

    // Whether two rosters have the same size and the same faulty set.
    pub fn is_same(&self, other: Roster) -> bool
        ensures { result ≡ same_roster self.now other }
    {
        *self == other
    }
}
