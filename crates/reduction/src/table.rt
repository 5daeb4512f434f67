// What a reduction remembers of its seats.
ghost use Rattle.std.specs.Prelude.{◌≡◌, false, length, replicate};
ghost use Rattle.settling.specs.Layers.{blank};

use settling::record::Record;

// The records of the seats, seat k at index k - 1.
#[derive(Clone, Copy)]
pub struct Table {
    seats: [Record; 10],
    // whether any record was changed
    touched: bool,
    ghost room: { length seats ≡ 10 },
    ghost clear: { touched ≡ false → seats ≡ replicate 10 blank },
}

pub mod keep;
