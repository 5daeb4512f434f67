// What changes a reduction: a put to one of its parts, and one seat's record with it.
ghost use Rattle.std.specs.Prelude.{◌≡◌, true, false, is_ok};
ghost use Rattle.agreement.specs.Views.{put_denial};
ghost use Rattle.carrier.specs.Views.{put_denial as carrier_put_denial};
ghost use Rattle.reduction.specs.Parts.{Kept, PutAbove, PutBelow};
ghost use Rattle.roster.specs.Checks.{answer};

use crate::reduction::Reduction;
use agreement::agreement::Agreement;
use carrier::carrier::Carrier;
use roster::denial::Denial;
use settling::record::Record;

impl<C: Carrier, B: Agreement> Reduction<C, B> {
    pub(super) fn put_above(
        &mut self,
        seat: u64,
        slot: u64,
        code: u64,
        to: Record,
    ) -> Result<(), Denial>
        ensures value { result ≡ answer (carrier_put_denial (C.Carrier.view self.old.carrier) seat slot) tt }
        ensures same { is_ok result ≡ false → self.new ≡ self.old }
        ensures after { is_ok result ≡ true → PutAbove C.Carrier B.Agreement self.old seat slot code to self.new }
        ensures keeps { C.Carrier.ok self.old.carrier → C.Carrier.ok self.new.carrier }
    {
        self.carrier.put(seat, slot, code)?;
        self.table.change(seat, to);
        Ok(())
    }

    pub(super) fn put_below(&mut self, seat: u64, code: u64, to: Record) -> Result<(), Denial>
        ensures value { result ≡ answer (put_denial (B.Agreement.view self.old.below) seat code) tt }
        ensures same { is_ok result ≡ false → self.new ≡ self.old }
        ensures after { is_ok result ≡ true → PutBelow C.Carrier B.Agreement self.old seat code to self.new }
        ensures keeps { B.Agreement.ok self.old.below → B.Agreement.ok self.new.below }
    {
        self.below.put(seat, code)?;
        self.table.change(seat, to);
        Ok(())
    }

    pub(super) fn keep(&mut self, seat: u64, to: Record)
        ensures { Kept C.Carrier B.Agreement self.old seat to self.new }
    {
        self.table.change(seat, to);
    }
}
