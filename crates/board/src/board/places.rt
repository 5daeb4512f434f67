// Where a board keeps what. Seat, origin and slot come one by one, as a carrier is asked by any three numbers.
ghost use Rattle.std.specs.Prelude.{◌≡◌, ◌<◌, true};
ghost use Rattle.board.specs.Places.{is_place, is_held_place, place, held_place};

use carrier::slot::is_slot;

// Whether there is a place for a seat and slot.
pub fn is_place(seat: u64, slot: u64) -> bool
    ensures { result ≡ is_place seat slot }
{
    1 <= seat && seat <= 10 && is_slot(slot)
}

// Whether there is a place for a receiver, an origin and a slot.
pub fn is_held_place(seat: u64, origin: u64, slot: u64) -> bool
    ensures { result ≡ is_held_place seat origin slot }
{
    1 <= seat && seat <= 10 && is_place(origin, slot)
}

// The place of what a seat wrote for a slot.
pub fn of_written(seat: u64, slot: u64) -> usize
    requires { is_place seat slot ≡ true }
    ensures value { result ≡ place seat slot }
    ensures within { result < 20 }
{
    (2 * (seat - 1) + (slot - 1)) as usize
}

// The place of what a seat holds from an origin and slot.
pub fn of_held(seat: u64, origin: u64, slot: u64) -> usize
    requires { is_held_place seat origin slot ≡ true }
    ensures value { result ≡ held_place seat origin slot }
    ensures within { result < 200 }
{
    20 * (seat as usize - 1) + of_written(origin, slot)
}
