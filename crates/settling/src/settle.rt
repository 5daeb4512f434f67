// Settling: what the codes that a seat holds, with their flags, count as.
ghost use Rattle.std.specs.Prelude.{◌≡◌, ℕ, ◌<◌, ◌≤◌, None};
ghost use Rattle.roster.specs.Votes.{by_seat};
ghost use Rattle.settling.specs.Rules.{settled, settled_by, settled_from};

use crate::holdings::Holdings;
use crate::row::Row;
use roster::decision::Decision;
use roster::votes::{count_others, count_votes};
use std::array;

impl Holdings {
    // A flag says that its seat found enough others with its own code, or enough without it. Here that is counted again.
    fn settled_by(&self, code: u64, flag: u64) -> Option<Decision>
        ensures { result ≡ settled_by self.now.size.n self.now.size.t (by_seat self.now.codes) code flag }
    {
        let needed = self.size.one_sound();
        if flag == 1 && count_votes(self.size, &self.codes, code) >= needed {
            return Some(Decision::Code(code));
        }
        if flag == 0 && count_others(self.size, &self.codes, code) >= needed {
            return Some(Decision::Nothing);
        }
        None
    }

    fn settled_from(&self, code: Option<u64>, flag: Option<u64>) -> Option<Decision>
        ensures { result ≡ settled_from self.now.size.n self.now.size.t (by_seat self.now.codes) code flag }
    {
        self.settled_by(code?, flag?)
    }

    // What each origin is settled as.
    pub fn settle(&self) -> Row
        ensures size { result.size ≡ self.now.size }
        ensures settled { (j : ℕ) → 1 ≤ j → j ≤ self.now.size.n → by_seat result.settled j ≡ settled self.now.size.n self.now.size.t (by_seat self.now.codes) (by_seat self.now.flags) j }
        ensures rest { (j : ℕ) → self.now.size.n < j → by_seat result.settled j ≡ None }
    {
        let n = self.size.n() as usize;
        Row {
            size: self.size,
            settled: array::from_fn(|i| {
                if i < n {
                    self.settled_from(self.codes[i], self.flags[i])
                } else {
                    None
                }
            }),
        }
    }
}
