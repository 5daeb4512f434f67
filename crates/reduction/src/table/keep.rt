// Reading and changing a table.
ghost use Rattle.std.specs.Prelude.{◌≡◌, ◌-◌, true, false, replicate, slice_index_or, slice_set};
ghost use Rattle.settling.specs.Layers.{blank};

use crate::table::Table;
use roster::votes::set_seat;
use settling::record::Record;

impl Table {
    // Nobody has done anything.
    pub fn new() -> Table
        ensures seats { result.seats ≡ replicate 10 blank }
        ensures touched { result.touched ≡ false }
    {
        Table {
            seats: [Record::default(); 10],
            touched: false,
        }
    }

    // What a seat has done.
    pub fn seat(&self, seat: u64) -> Record
        ensures { result ≡ slice_index_or self.now.seats (seat - 1) blank }
    {
        let place = seat.saturating_sub(1) as usize;
        self.seats.get(place).copied().unwrap_or_default()
    }

    // Whether any record was changed.
    pub fn is_touched(&self) -> bool
        ensures { result ≡ self.now.touched }
    {
        self.touched
    }

    // One record changed.
    pub fn change(&mut self, seat: u64, to: Record)
        ensures seats { self.new.seats ≡ slice_set self.old.seats (seat - 1) to }
        ensures touched { self.new.touched ≡ true }
    {
        self.touched = true;
        set_seat(&mut self.seats, seat, to);
    }
}
