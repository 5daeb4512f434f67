// What a reduction's parts say.
ghost use Rattle.std.specs.Prelude.{◌≡◌, ℕ, ◌≤◌};
ghost use Rattle.reduction.specs.Parts.{layer_of};
ghost use Rattle.roster.specs.Votes.{by_seat};
ghost use Rattle.settling.specs.Layers.{decided_below, due_at, fits, held_row, idle, is_idle, roster_of, size_n};

use crate::reduction::Reduction;
use agreement::agreement::Agreement;
use carrier::carrier::Carrier;
use roster::decision::Decision;
use roster::size::Size;
use settling::holdings::Holdings;
use settling::record::Due;
use std::array;

impl<C: Carrier, B: Agreement> Reduction<C, B> {
    pub(super) fn size(&self) -> Size
        ensures { result ≡ (roster_of (layer_of C.Carrier B.Agreement self.now)).size }
    {
        self.carrier.roster().size()
    }

    // Whether the parts fit each other.
    pub(super) fn has_fitting_parts(&self) -> bool
        ensures { result ≡ fits (layer_of C.Carrier B.Agreement self.now) }
    {
        self.carrier.is_matched()
            && self.below.is_matched()
            && self.below.is_plain()
            && self.below.largest() == 1
            && self.carrier.roster().is_same(self.below.roster())
            && 1 <= self.largest
    }

    // What a seat holds from an origin and slot.
    fn held(&self, seat: u64, origin: u64, slot: u64) -> Option<u64>
        ensures { result ≡ held_row (layer_of C.Carrier B.Agreement self.now) seat slot origin }
    {
        self.carrier.holds(seat, origin, slot).unwrap_or(None)
    }

    // What a seat decided below.
    fn decided(&self, seat: u64) -> Option<Decision>
        ensures { result ≡ decided_below (layer_of C.Carrier B.Agreement self.now) seat }
    {
        self.below.decision(seat).unwrap_or(None)
    }

    // What a seat holds from all origins for a slot.
    fn row(&self, seat: u64, slot: u64) -> [Option<u64>; 10]
        ensures { (j : ℕ) → 1 ≤ j → j ≤ size_n (layer_of C.Carrier B.Agreement self.now) → by_seat result j ≡ held_row (layer_of C.Carrier B.Agreement self.now) seat slot j }
    {
        array::from_fn(|i| self.held(seat, i as u64 + 1, slot))
    }

    // The act that is due for a seat.
    pub(super) fn due(&self, seat: u64) -> Option<Due>
        ensures { result ≡ due_at (layer_of C.Carrier B.Agreement self.now) seat }
    {
        let held = Holdings {
            size: self.size(),
            codes: self.row(seat, 1),
            flags: self.row(seat, 2),
        };
        held.due(self.table.seat(seat), self.decided(seat))
    }

    // Whether a seat, if it is sound, has nothing due.
    fn is_idle_seat(&self, seat: u64) -> bool
        ensures { result ≡ is_idle (layer_of C.Carrier B.Agreement self.now) seat }
    {
        !self.carrier.roster().is_sound(seat) || self.due(seat).is_none()
    }

    // Whether no sound seat has anything due.
    pub(super) fn is_idle(&self) -> bool
        ensures { result ≡ idle (layer_of C.Carrier B.Agreement self.now) }
    {
        (1..self.size().n() + 1).all(|seat| self.is_idle_seat(seat))
    }
}
