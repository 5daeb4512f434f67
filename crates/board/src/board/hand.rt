// Handing over what was written.
ghost use Rattle.std.specs.Prelude.{◌≡◌, true, false, is_ok};
ghost use Rattle.board.specs.Rules.{hand_denial, Handed};
ghost use Rattle.roster.specs.Checks.{answer};

use crate::board::Board;
use crate::board::places::of_held;
use roster::denial::Denial;

impl Board {
    // The sound seat `to` is handed what `from` wrote for a slot, once.
    pub(super) fn hand(&mut self, from: u64, to: u64, slot: u64) -> Result<(), Denial>
        ensures value { result ≡ answer (hand_denial self.old from to slot) tt }
        ensures same { is_ok result ≡ false → self.new ≡ self.old }
        ensures after { is_ok result ≡ true → Handed self.old from to slot self.new }
    {
        if !self.has(from, slot) {
            return Err(Denial::OutOfRange);
        }
        self.roster.check_sound(to)?;
        let Some(code) = self.writing(from, slot) else {
            return Err(Denial::NothingDue);
        };
        if self.holding(to, from, slot).is_some() {
            return Err(Denial::HandedBefore);
        }
        let place = of_held(to, from, slot);
        self.held[place] = Some(code);
        self.touched = true;
        Ok(())
    }
}
