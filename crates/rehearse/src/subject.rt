// What is rehearsed.
ghost use Rattle.std.specs.Prelude.{◌≤◌, length};

use anyhow::anyhow;
use board::board::Board;
use broadcast::cell::Cell;
use carrier::history::Entry;
use carrier::run::run;
use letters::letters::Letters;
use letters::letters::make::cells_needed;
use roster::roster::Roster;
use scenario::line::{Kind, Line};
use scenario::plan::{Acts, most_of_settling};
use std::alloc::{AllocError, Global};

// A carrier, its roster once that is made, and the acts with their texts. Acts and texts are two lists, since a plan goes through lines
// alone: out of one list of pairs it would need a second copy of all lines.
#[derive(Drop)]
pub struct Subject<'a> {
    pub kind: Kind,
    pub roster: Option<Roster>,
    acts: Vec<Line>,
    texts: Vec<&'a str>,
}

impl<'a> Subject<'a> {
    pub(crate) fn new(heap: Global, kind: Kind) -> Subject<'a> {
        Subject {
            kind,
            roster: None,
            acts: Vec::new(heap),
            texts: Vec::new(heap),
        }
    }

    pub(crate) fn add(&mut self, text: &'a str, act: Line) -> Result<(), AllocError> {
        self.acts.push(act)?;
        self.texts.push(text)?;
        Ok(())
    }

    // Adds the acts with their answers to the story.
    pub(crate) fn play(&self, heap: Global, story: &mut String) -> anyhow::Result<()> {
        let Some(roster) = self.roster else {
            return Ok(());
        };
        let history = self.history(heap, roster)?;
        self.add_answers(story, history.as_slice(), roster)?;
        Ok(())
    }

    // The run of the acts on a fresh carrier. A run is generic in its carrier, and the two carriers are different types.
    fn history(&self, heap: Global, roster: Roster) -> anyhow::Result<Vec<Entry>> {
        let mut plan = Acts::new(self.acts.as_slice(), roster.size().n());
        let history = match self.kind {
            Kind::Board => run(heap, Board::new(roster), &mut plan, u64::MAX),
            Kind::Letters => {
                let mut cells = vec![in heap; Cell::blank(); cells_needed(roster.size())]?;
                run(
                    heap,
                    Letters::new(roster, cells.as_mut_slice()),
                    &mut plan,
                    u64::MAX,
                )
            }
        };
        history.map_err(|e| anyhow!("{e}"))
    }

    fn add_answers(
        &self,
        story: &mut String,
        history: &[Entry],
        roster: Roster,
    ) -> Result<(), AllocError> {
        let most = most_of_settling(roster.size().n());
        let mut rest = history;
        for (text, act) in self.texts.iter().zip(self.acts.iter()) {
            if let Line::Settle = act {
                let (settling, others) = rest.split_at(settling_len(rest, most));
                let end = last_of(settling);
                writeln!(story, "{text}: {end}")?;
                rest = others;
            } else if let [entry, others @ ..] = rest {
                let answer = &entry.answer;
                writeln!(story, "{text}: {answer}")?;
                rest = others;
            }
        }
        Ok(())
    }
}

// How many entries belong to the settling that comes first.
fn settling_len(history: &[Entry], most: u64) -> usize
    ensures { result ≤ length history.now }
{
    history
        .iter()
        .position(|entry| entry.still)
        .map_or(history.len(), |k| k + 1)
        .min(most as usize)
}

fn last_of(settling: &[Entry]) -> &'static str {
    match settling.last() {
        Some(entry) if entry.still => "still",
        _ => "not still",
    }
}
