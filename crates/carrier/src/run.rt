// Runs a carrier from its first act on.
ghost use Rattle.std.specs.Prelude.{◌≡◌, false, ◌⊎◌, List, IfOk, IfErr, Option, Some};
ghost use Rattle.carrier.specs.Histories.{Answers, Does, Law, Planned, Ran};
ghost use Rattle.carrier.specs.Views.{View};
ghost use Rattle.carrier.specs.Words.{why_not};
ghost use Rattle.carrier.specs.declared.run.NoRun.TheVariants.{Memory, Touched};
ghost use Rattle.carrier.specs.declared.history.Act.{Act};
ghost use Rattle.carrier.specs.declared.history.Entry.{Entry};

use crate::carrier::Carrier;
use crate::history::{Act, Answer, Entry};
use std::alloc::{AllocFailed, Global};
use std::fmt;

// Chooses the acts of a run, each in view of the answers so far: a list, or someone at a prompt.
pub trait Plan {
    // what it may choose after a history, and what it is then
    ghost chooses: { Self → List Entry → Option Act → Self → Type 0 };

    // The next act, and none where the run is over.
    fn next(&mut self, history: &[Entry]) -> Option<Act>
        ensures { chooses self.old history.now result self.new };
}

// Why there was no run, or none to the end.
#[derive(Clone, Copy, PartialEq, Eq, Debug)]
pub enum NoRun {
    // the carrier had been used before
    Touched,
    // there was no memory for the history
    Memory,
}

impl fmt::Display for NoRun {
    ghost output = { λ e. Some (why_not e) };

    fn fmt<W: fmt::Write>(&self, f: &mut fmt::Formatter<W>) -> fmt::Result {
        f.write_str(match self {
            NoRun::Touched => "the carrier was used before",
            NoRun::Memory => "there is no memory for the history",
        })
    }
}

impl From<AllocFailed<Entry>> for NoRun {
    ghost from_gives = { λ _ e. e ≡ Memory };

    fn from(_: AllocFailed<Entry>) -> NoRun {
        Self::Memory
    }
}

// Performs what the plan chooses, `most` acts at the most, on a fresh carrier. Whatever the plan chooses and the faulty
// seats do, the history keeps the law.
pub fn run<C: Carrier + Drop, P: Plan>(
    heap: Global,
    mut carrier: C,
    plan: &mut P,
    most: u64,
) -> Result<Vec<Entry>, NoRun>
    ensures law { IfOk result (λ h. Law (C.Carrier.view carrier).fixed.roster h.items) }
    ensures ran { IfOk result (λ h. (end : View) × Ran (C.Carrier.view carrier) h.items end) }
    ensures planned { IfOk result (λ h. Planned P.Plan.chooses most plan.old h.items plan.new) }
    ensures refused { IfErr result (λ e. (e ≡ Memory) ⊎ ((e ≡ Touched) × ((C.Carrier.view carrier).untouched ≡ false))) }
{
    if !carrier.is_untouched() {
        return Err(NoRun::Touched);
    }
    let mut history = Vec::new(heap);
    for _k in 0..most {
        let Some(act) = plan.next(history.as_slice()) else {
            return Ok(history);
        };
        let entry = perform(&mut carrier, act);
        history.push(entry)?;
    }
    Ok(history)
}

// One act, and what came of it.
fn perform<C: Carrier>(carrier: &mut C, act: Act) -> Entry
    ensures act { result.act ≡ act }
    ensures does { Does (C.Carrier.view carrier.old) result (C.Carrier.view carrier.new) }
    ensures keeps { C.Carrier.ok carrier.old → C.Carrier.ok carrier.new }
{
    let answer = answered(carrier, act);
    Entry {
        act,
        answer,
        still: carrier.is_still(),
    }
}

fn answered<C: Carrier>(carrier: &mut C, act: Act) -> Answer
    ensures answers { Answers (C.Carrier.view carrier.old) act result (C.Carrier.view carrier.new) }
    ensures keeps { C.Carrier.ok carrier.old → C.Carrier.ok carrier.new }
{
    match act {
        Act::Put { seat, slot, code } => carrier.put(seat, slot, code).into(),
        Act::Move(by) => carrier.step(by).into(),
        Act::Holds { seat, origin, slot } => carrier.holds(seat, origin, slot).into(),
        Act::Still => Answer::Still(carrier.is_still()),
    }
}
