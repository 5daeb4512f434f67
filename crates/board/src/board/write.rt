// Writing on a board.
ghost use Rattle.std.specs.Prelude.{◌≡◌, true, false, is_ok};
ghost use Rattle.board.specs.Rules.{write_denial, Written};
ghost use Rattle.roster.specs.Checks.{answer};

use crate::board::Board;
use crate::board::places::of_written;
use roster::denial::Denial;

impl Board {
    // A seat writes for a slot, once. A put is a sound seat's, a stray act a faulty one's.
    pub(super) fn write(
        &mut self,
        as_sound: bool,
        seat: u64,
        slot: u64,
        code: u64,
    ) -> Result<(), Denial>
        ensures value { result ≡ answer (write_denial self.old as_sound seat slot) tt }
        ensures same { is_ok result ≡ false → self.new ≡ self.old }
        ensures after { is_ok result ≡ true → Written self.old seat slot code self.new }
    {
        if !self.has(seat, slot) {
            return Err(Denial::OutOfRange);
        }
        if self.roster.is_sound(seat) != as_sound {
            return Err(Denial::FaultySeat);
        }
        if self.writing(seat, slot).is_some() {
            return Err(Denial::PutBefore);
        }
        let place = of_written(seat, slot);
        self.written[place] = Some(code);
        self.touched = true;
        Ok(())
    }
}
