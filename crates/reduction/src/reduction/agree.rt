// A reduction is an agreement, whatever carrier and plain agreement it stands on.
ghost use Rattle.std.specs.Prelude.{◌≡◌, true, false, is_ok, None, Err, nat_le};
ghost use Rattle.agreement.specs.Views.{Moved, Put, put_denial, seat_denial};
ghost use Rattle.reduction.specs.Good as good;
ghost use Rattle.reduction.specs.Parts.{PutAbove, Steps, layer_of};
ghost use Rattle.roster.specs.Checks.{answer, check};
ghost use Rattle.roster.specs.declared.denial.Denial.TheVariants.{CodeTooLarge, IllMatched};
ghost use Rattle.settling.specs.Layers.{matched, meaning, record_of, with_code};

use crate::reduction::Reduction;
use crate::reduction::wake::below_by;
use agreement::agreement::Agreement;
use carrier::carrier::Carrier;
use roster::decision::Decision;
use roster::denial::Denial;
use roster::moves::Move;
use roster::roster::Roster;

impl<C: Carrier, B: Agreement> Reduction<C, B> {
    // Whether it was made of untouched parts that fit each other.
    fn is_whole(&self) -> bool
        ensures { result ≡ matched (layer_of C.Carrier B.Agreement self.now) }
    {
        self.made && self.has_fitting_parts()
    }

    // The checks of a seat, in their order.
    fn check_seat(&self, seat: u64) -> Result<(), Denial>
        ensures { result ≡ answer (seat_denial (meaning (layer_of C.Carrier B.Agreement self.now)).fixed seat None) tt }
    {
        if !self.is_whole() {
            return Err(Denial::IllMatched);
        }
        self.carrier.roster().check_sound(seat)
    }

    // The checks of a put that the carrier does not make.
    fn check_code(&self, seat: u64, code: u64) -> Result<(), Denial>
        ensures { result ≡ answer (seat_denial (meaning (layer_of C.Carrier B.Agreement self.now)).fixed seat (check (nat_le code self.now.largest) CodeTooLarge None)) tt }
    {
        self.check_seat(seat)?;
        if code > self.largest {
            return Err(Denial::CodeTooLarge);
        }
        Ok(())
    }
}

impl<C: Carrier, B: Agreement> Agreement for Reduction<C, B> {
    ghost view = { λ s. meaning (layer_of C.Carrier B.Agreement s) };

    ghost ok = { λ s. good.Ok C.Carrier B.Agreement s };

    ghost fresh = { λ s. good.fresh C.Carrier B.Agreement s };

    ghost lawful = { λ s. good.lawful C.Carrier B.Agreement s };

    ghost steps = { λ s by r e. Steps C.Carrier B.Agreement s by r e };

    // The code goes to the carrier's first slot.
    fn put(&mut self, seat: u64, code: u64) -> Result<(), Denial>
        ensures value { result ≡ answer (put_denial (meaning (layer_of C.Carrier B.Agreement self.old)) seat code) tt }
        ensures same { is_ok result ≡ false → self.new ≡ self.old }
        ensures after { is_ok result ≡ true → Put (meaning (layer_of C.Carrier B.Agreement self.old)) seat code (meaning (layer_of C.Carrier B.Agreement self.new)) }
        ensures keeps { good.Ok C.Carrier B.Agreement self.old → good.Ok C.Carrier B.Agreement self.new }
        ensures exact { is_ok result ≡ true → PutAbove C.Carrier B.Agreement self.old seat 1 code (with_code (record_of (layer_of C.Carrier B.Agreement self.old) seat) code) self.new }
    {
        self.check_code(seat, code)?;
        let mut to = self.table.seat(seat);
        to.code = Some(code);
        self.put_above(seat, 1, code, to)
    }

    // Address 0 is the reduction itself, 1 the carrier, and from 2 on the agreement below with its own addresses.
    fn step(&mut self, by: Move) -> Result<(), Denial> {
        if !self.is_whole() {
            return Err(Denial::IllMatched);
        }
        match by.address {
            0 => self.wake(by),
            1 => self.carrier.step(by),
            _ => self.below.step(below_by(by)),
        }
    }

    fn decision(&self, seat: u64) -> Result<Option<Decision>, Denial> {
        self.check_seat(seat)?;
        Ok(self.table.seat(seat).decided)
    }

    fn is_still(&self) -> bool {
        self.is_whole() && self.carrier.is_still() && self.below.is_still() && self.is_idle()
    }

    fn roster(&self) -> Roster {
        self.carrier.roster()
    }

    fn largest(&self) -> u64 {
        self.largest
    }

    fn is_plain(&self) -> bool {
        false
    }

    fn is_matched(&self) -> bool {
        self.is_whole()
    }

    fn is_untouched(&self) -> bool {
        !self.is_whole()
            || self.carrier.is_untouched() && self.below.is_untouched() && !self.table.is_touched()
    }
}
