// The acts of a scenario, each chosen in view of the answers so far.
ghost use Rattle.std.specs.Prelude.{◌≡◌, ◌+◌, ◌*◌, min};
ghost use Rattle.carrier.specs.declared.history.Act.TheVariants.{Still as still_act};
ghost use Rattle.scenario.specs.Plans.{Goes};

use crate::line::Line;
use carrier::history::{Act, Entry};
use carrier::run::Plan;
use roster::moves::{Move, MoveKind};

// How often a settling tries every hand-over there is, at the most. What was handed over may lead to more.
const PASSES: u64 = 16;

#[derive(Drop)]
pub struct Acts<'a> {
    lines: &'a [Line],
    // how many seats there are
    n: u64,
    // the place of the line that is next, or that is being settled
    at: usize,
    // how many acts of the present settling were chosen
    settling: u64,
}

impl<'a> Acts<'a> {
    // A plan that has its first line before it.
    pub fn new(lines: &'a [Line], n: u64) -> Acts<'a>
        ensures lines { result.lines.now ≡ lines.now }
        ensures start { (result.n ≡ n) × (result.at ≡ 0) × (result.settling ≡ 0) }
    {
        Acts {
            lines,
            n,
            at: 0,
            settling: 0,
        }
    }
}

// How many acts a settling chooses at the most: a question, then hand-overs.
pub fn most_of_settling(n: u64) -> u64
    ensures { result ≡ 1 + 16 * (6 * min n 10 * min n 10 * min n 10) }
{
    let n = n.min(10);
    1 + PASSES * (6 * n * n * n)
}

// One of all hand-overs: by letter, then sender, receiver, origin and slot.
fn hand_over(k: u64, n: u64) -> Act {
    let n = n.max(1);
    Act::Move(Move {
        address: 0,
        kind: MoveKind::HandOver.into(),
        slot: k % 2 + 1,
        origin: k / 2 % n + 1,
        to: k / 2 / n % n + 1,
        from: k / 2 / n / n % n + 1,
        letter: k / 2 / n / n / n % 3 + 1,
        code: 0,
    })
}

impl Acts<'_> {
    // Goes on to the next line where a settling is over.
    fn leave_settled(&mut self, history: &[Entry])
        ensures lines { self.new.lines.now ≡ self.old.lines.now }
        ensures same { self.old.settling ≡ 0 → (self.new.at ≡ self.old.at) × (self.new.settling ≡ 0) }
    {
        if self.settling > 0 && is_settled(history, self.settling, self.n) {
            self.settling = 0;
            self.at = self.at.saturating_add(1);
        }
    }

    fn choose(&mut self) -> Option<Act>
        ensures { Goes (record { lines = self.old.lines.now; at = self.old.at; settling = self.old.settling }) result (record { lines = self.new.lines.now; at = self.new.at; settling = self.new.settling }) }
    {
        match *self.lines.get(self.at)? {
            Line::Act(act) => {
                self.at += 1;
                Some(act)
            }
            Line::Settle => Some(self.next_of_settling()),
            _ => None,
        }
    }

    fn next_of_settling(&mut self) -> Act
        ensures lines { self.new.lines.now ≡ self.old.lines.now }
        ensures at { self.new.at ≡ self.old.at }
        ensures first { self.old.settling ≡ 0 → (result ≡ still_act) × (self.new.settling ≡ 1) }
    {
        let k = self.settling;
        self.settling = k.saturating_add(1);
        if k == 0 {
            Act::Still
        } else {
            hand_over(k - 1, self.n)
        }
    }
}

impl Plan for Acts<'_> {
    ghost chooses = { λ p h r q. Goes (record { lines = p.lines.now; at = p.at; settling = p.settling }) r (record { lines = q.lines.now; at = q.at; settling = q.settling }) };

    fn next(&mut self, history: &[Entry]) -> Option<Act> {
        self.leave_settled(history);
        self.choose()
    }
}

// Whether a settling of so many acts is over.
fn is_settled(history: &[Entry], acts: u64, n: u64) -> bool {
    history
        .last()
        .is_none_or(|entry| entry.still || acts >= most_of_settling(n))
}
