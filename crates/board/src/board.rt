// What a board holds.
ghost use Rattle.std.specs.Prelude.{◌≡◌, false, length, replicate, None};

use roster::roster::Roster;

// Each seat writes once for a slot, and what was written is handed to the sound seats one by one. A faulty seat writes what it likes,
// but all are handed the same.
#[derive(Drop)]
pub struct Board {
    roster: Roster,
    // by seat and slot
    written: [Option<u64>; 20],
    // what was handed over, by receiver, origin and slot: stored, so that a later writing changes no holding
    held: [Option<u64>; 200],
    touched: bool,
    ghost room: { length written ≡ 20 },
    ghost rooms: { length held ≡ 200 },
    // an untouched board is blank
    ghost unwritten: { touched ≡ false → written ≡ replicate 20 None },
    ghost unheld: { touched ≡ false → held ≡ replicate 200 None },
}

pub mod carry;
mod hand;
mod look;
pub mod make;
mod places;
mod still;
mod write;
