// Making a carrier of letters.
ghost use Rattle.std.specs.Prelude.{◌≡◌, false};
ghost use Rattle.broadcast.specs.Meanings.{Clear, cleared};
ghost use Rattle.broadcast.specs.Rows.{room};

use crate::letters::Letters;
use broadcast::cell::Cell;
use roster::roster::Roster;
use roster::size::Size;

// How many cells a carrier works on: one for each receiver, origin and slot.
pub fn cells_needed(size: Size) -> usize
    ensures { result ≡ room size.n }
{
    let n = size.n() as usize;
    2 * n * n
}

// A list that is too short is left as it is.
fn clear(cells: &mut [Cell], size: Size)
    ensures after { cells.new ≡ cleared size.n cells.old }
    ensures clear { Clear size.n cells.new false }
{
    let count = cells_needed(size);
    if count <= cells.len() {
        cells[..count].fill(Cell::blank());
    }
}

impl<'a> Letters<'a> {
    // A list that is too short makes an ill-matched carrier.
    pub fn new(roster: Roster, cells: &'a mut [Cell]) -> Letters<'a>
        ensures roster { result.roster ≡ roster }
        ensures touched { result.touched ≡ false }
        ensures after { result.cells.now ≡ cleared roster.size.n cells.old }
        ensures name { result.cells.ghost_name ≡ cells.entry.ghost_name }
    {
        clear(cells, roster.size());
        Letters {
            roster,
            cells,
            touched: false,
        }
    }
}
