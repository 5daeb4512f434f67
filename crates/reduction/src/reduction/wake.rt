// A wake: the first act that is due, and only that.
ghost use Rattle.std.specs.Prelude.{◌≡◌, ◌≤◌, true, false, is_ok, Some};
ghost use Rattle.reduction.specs.Parts.{Does, below_by, layer_of};
ghost use Rattle.roster.specs.Checks.{answer};
ghost use Rattle.settling.specs.declared.record.Due.{Due};
ghost use Rattle.settling.specs.Layers.{due_at, matched};
ghost use Rattle.settling.specs.Wakes.{act_denial, wake_denial};

use crate::reduction::Reduction;
use agreement::agreement::Agreement;
use carrier::carrier::Carrier;
use roster::denial::Denial;
use roster::moves::{Move, MoveKind};
use settling::record::Due;

// The same move, for the agreement below.
pub(super) fn below_by(by: Move) -> Move
    requires { 2 ≤ by.address }
    ensures { result ≡ below_by by }
{
    Move {
        address: by.address - 2,
        ..by
    }
}

impl<C: Carrier, B: Agreement> Reduction<C, B> {
    fn act(&mut self, seat: u64, due: Due) -> Result<(), Denial>
        ensures value { result ≡ answer (act_denial (layer_of C.Carrier B.Agreement self.old) seat due) tt }
        ensures same { is_ok result ≡ false → self.new ≡ self.old }
        ensures does { is_ok result ≡ true → Does C.Carrier B.Agreement self.old seat due self.new }
        ensures above { C.Carrier.ok self.old.carrier → C.Carrier.ok self.new.carrier }
        ensures below { B.Agreement.ok self.old.below → B.Agreement.ok self.new.below }
    {
        let mut to = self.table.seat(seat);
        match due {
            Due::Flag(flag) => {
                to.flagged = true;
                self.put_above(seat, 2, u64::from(flag), to)
            }
            Due::Vote(bit) => {
                to.voted = true;
                self.put_below(seat, u64::from(bit), to)
            }
            Due::Decide(decision) => {
                to.decided = Some(decision);
                self.keep(seat, to);
                Ok(())
            }
        }
    }

    pub(super) fn wake(&mut self, by: Move) -> Result<(), Denial>
        requires { matched (layer_of C.Carrier B.Agreement self.old) ≡ true }
        ensures value { result ≡ answer (wake_denial (layer_of C.Carrier B.Agreement self.old) by) tt }
        ensures same { is_ok result ≡ false → self.new ≡ self.old }
        ensures does { (x : Due) → due_at (layer_of C.Carrier B.Agreement self.old) by.to ≡ Some x → is_ok result ≡ true → Does C.Carrier B.Agreement self.old by.to x self.new }
        ensures above { C.Carrier.ok self.old.carrier → C.Carrier.ok self.new.carrier }
        ensures below { B.Agreement.ok self.old.below → B.Agreement.ok self.new.below }
    {
        let MoveKind::Wake = MoveKind::try_from(by.kind)? else {
            return Err(Denial::NoSuchAddress);
        };
        self.carrier.roster().check_sound(by.to)?;
        let due = self.due(by.to).ok_or(Denial::NothingDue)?;
        self.act(by.to, due)
    }
}
