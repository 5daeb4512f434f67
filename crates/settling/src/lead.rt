// The tally of what is settled, and the bit that it gives.
ghost use Rattle.std.specs.Prelude.{◌≡◌};
ghost use Rattle.roster.specs.Votes.{by_seat};
ghost use Rattle.settling.specs.Leads.{Leads};
ghost use Rattle.settling.specs.Rules.{ahead, bit, figures, support, tally};

use crate::row::Row;
use roster::decision::Decision;

impl Row {
    // How many origins are settled as a code.
    pub fn support(&self, code: u64) -> u64
        ensures { result ≡ support self.now.size.n (by_seat self.now.settled) code }
    {
        let n = self.size.n() as usize;
        self.settled[..n]
            .iter()
            .filter(|settled| **settled == Some(Decision::Code(code)))
            .count() as u64
    }

    // How many origins are settled as any figure.
    pub fn count_figures(&self) -> u64
        ensures { result ≡ figures self.now.size.n (by_seat self.now.settled) }
    {
        let n = self.size.n() as usize;
        self.settled[..n]
            .iter()
            .filter(|settled| matches!(settled, Some(Decision::Code(_))))
            .count() as u64
    }

    // A figure leads once more origins are settled as it than as any at a lower seat.
    fn ahead_of(&self, settled: Option<Decision>, lead: (Decision, u64)) -> (Decision, u64)
        ensures { result ≡ ahead self.now.size.n (by_seat self.now.settled) settled lead }
    {
        let Some(Decision::Code(code)) = settled else {
            return lead;
        };
        let support = self.support(code);
        if lead.1 < support {
            (Decision::Code(code), support)
        } else {
            lead
        }
    }

    // Which settled figure most seats support, and how many; ties go to the lowest seat. Where no figure is settled, Nothing and 0.
    pub fn tally(&self) -> (Decision, u64)
        ensures value { result ≡ tally self.now.size.n (by_seat self.now.settled) }
        ensures leads { Leads self.now.size.n (by_seat self.now.settled) result }
    {
        let n = self.size.n() as usize;
        let mut lead = (Decision::Nothing, 0);
        for settled in &self.settled[..n] {
            lead = self.ahead_of(*settled, lead);
        }
        lead
    }

    // The bit: whether the leading figure has enough support, and no second figure is settled.
    pub fn bit(&self) -> bool
        ensures { result ≡ bit self.now.size.n self.now.size.t (by_seat self.now.settled) }
    {
        let lead = self.tally();
        lead.1 >= self.size.sound_rest() && lead.1 == self.count_figures()
    }
}
