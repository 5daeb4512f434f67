// A carrier over a lent list of cells.
ghost use Rattle.broadcast.specs.Meanings.{Clear};

use broadcast::cell::Cell;
use roster::roster::Roster;

// One cell for each receiver, origin and slot; what the list has beyond them is never touched.
#[derive(Drop)]
pub struct Letters<'a> {
    roster: Roster,
    cells: &'a mut [Cell],
    // whether a put or a move was granted
    touched: bool,
    ghost clear: { Clear roster.size.n cells.now touched },
}

pub mod carry;
mod due;
pub mod make;
mod places;
mod rows;
mod stillness;
