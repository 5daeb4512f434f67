// Making an umpire.
ghost use Rattle.std.specs.Prelude.{◌≡◌, false, replicate, None};

use crate::umpire::Umpire;
use roster::roster::Roster;

impl Umpire {
    // An umpire whom nobody has told anything: ill-matched if there is but one code.
    pub fn new(roster: Roster, largest: u64) -> Umpire
        ensures same { result.roster ≡ roster }
        ensures largest { result.largest ≡ largest }
        ensures untouched { result.touched ≡ false }
        ensures puts { result.puts ≡ replicate 10 None }
        ensures ruling { result.ruling ≡ None }
        ensures given { result.given ≡ replicate 10 None }
    {
        Umpire {
            roster,
            largest,
            puts: [None; 10],
            ruling: None,
            given: [None; 10],
            touched: false,
        }
    }
}
