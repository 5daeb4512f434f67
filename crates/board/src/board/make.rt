// Making a board.
ghost use Rattle.std.specs.Prelude.{◌≡◌, false, replicate, None};

use crate::board::Board;
use roster::roster::Roster;

impl Board {
    // A board that nobody has written on.
    pub fn new(roster: Roster) -> Board
        ensures same { result.roster ≡ roster }
        ensures untouched { result.touched ≡ false }
        ensures written { result.written ≡ replicate 20 None }
        ensures held { result.held ≡ replicate 200 None }
    {
        Board {
            roster,
            written: [None; 20],
            held: [None; 200],
            touched: false,
        }
    }
}
