// Counting who said what, in an array by seat: seat k at index k - 1. There are ten seats at the most, so that no memory is asked for, and a
// size says how many there are.
ghost use Rattle.std.specs.Prelude.{◌≡◌, ◌-◌, slice_set};
ghost use Rattle.roster.specs.Votes.{by_seat, others, said, votes};

use crate::size::Size;

// What stands in a seat's place, and nothing past the last one; 0 is read as seat 1.
pub fn said_by<T: Copy>(by: &[Option<T>; 10], seat: u64) -> Option<T>
    ensures { result ≡ by_seat by.now seat }
{
    by.get(seat.saturating_sub(1) as usize).copied().flatten()
}

// Puts something in a seat's place, and changes nothing where there is none. By its index: what an entry that was lent by `get_mut` leaves in
// the array is not known.
#[tactic(auto, using(std::proofs::lemmas::List::set_past))]
pub fn set_seat<T: Drop>(by: &mut [T; 10], seat: u64, to: T)
    ensures { by.new ≡ slice_set by.old (seat - 1) to }
{
    let place = seat.saturating_sub(1) as usize;
    if place < 10 {
        by[place] = to;
    }
}

// How many seats said a code.
pub fn count_votes(size: Size, by: &[Option<u64>; 10], code: u64) -> u64
    ensures { result ≡ votes size.n (by_seat by.now) code }
{
    let n = size.n() as usize;
    let mut sum = 0;
    for said in &by[..n] {
        if *said == Some(code) {
            sum += 1;
        }
    }
    sum
}

// How many seats said anything.
pub fn count_said<T>(size: Size, by: &[Option<T>; 10]) -> u64
    ensures { result ≡ said size.n (by_seat by.now) }
{
    let n = size.n() as usize;
    let mut sum = 0;
    for said in &by[..n] {
        if said.is_some() {
            sum += 1;
        }
    }
    sum
}

// How many seats said something else than a code.
pub fn count_others(size: Size, by: &[Option<u64>; 10], code: u64) -> u64
    ensures { result ≡ others size.n (by_seat by.now) code }
{
    count_said(size, by) - count_votes(size, by, code)
}
