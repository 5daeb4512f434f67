// What a woken seat does: the first of three acts that is due.
ghost use Rattle.std.specs.Prelude.{◌≡◌, not, ◌&&◌, nat_le};
ghost use Rattle.roster.specs.Quorums.{all_but_faulty, one_sound};
ghost use Rattle.roster.specs.Votes.{by_seat, said, votes};
ghost use Rattle.settling.specs.Rules.{decides, decides_on, due};

use crate::holdings::Holdings;
use crate::record::{Due, Record};
use crate::row::Row;
use roster::decision::Decision;
use roster::votes::{count_said, count_votes};

impl Row {
    fn is_vote_due(&self, seat: Record) -> bool
        ensures { result ≡ (not seat.voted && nat_le (all_but_faulty self.now.size.n self.now.size.t) (said self.now.size.n (by_seat self.now.settled))) }
    {
        !seat.voted && count_said(self.size, &self.settled) >= self.size.all_but_faulty()
    }

    // On 0 Nothing is decided, on 1 the leading figure, once it has enough support.
    fn decides_on(&self, below: u64) -> Option<Due>
        ensures { result ≡ decides_on self.now.size.n self.now.size.t (by_seat self.now.settled) below }
    {
        if below == 0 {
            return Some(Due::Decide(Decision::Nothing));
        }
        let (figure, support) = self.tally();
        if below == 1 && support >= self.size.sound_rest() {
            return Some(Due::Decide(figure));
        }
        None
    }

    fn decides(&self, below: Option<Decision>) -> Option<Due>
        ensures { result ≡ decides self.now.size.n self.now.size.t (by_seat self.now.settled) below }
    {
        match below {
            Some(Decision::Code(code)) => self.decides_on(code),
            _ => None,
        }
    }
}

impl Holdings {
    fn is_flag_due(&self, seat: Record) -> bool
        ensures { result ≡ (not seat.flagged && nat_le (all_but_faulty self.now.size.n self.now.size.t) (said self.now.size.n (by_seat self.now.codes))) }
    {
        !seat.flagged && count_said(self.size, &self.codes) >= self.size.all_but_faulty()
    }

    // Whether enough others put what the seat put.
    fn flag_of(&self, code: u64) -> bool
        ensures { result ≡ nat_le (one_sound self.now.size.t) (votes self.now.size.n (by_seat self.now.codes) code) }
    {
        count_votes(self.size, &self.codes, code) >= self.size.one_sound()
    }

    // The act that is due, by the seat's record, what it holds and what it decided below. A seat that has not put has nothing due.
    #[tactic(auto, unfolding(crate::specs::Rules::due))]
    pub fn due(&self, seat: Record, below: Option<Decision>) -> Option<Due>
        ensures { result ≡ due self.now.size.n self.now.size.t seat (by_seat self.now.codes) (by_seat self.now.flags) below }
    {
        let code = seat.code?;
        if self.is_flag_due(seat) {
            return Some(Due::Flag(self.flag_of(code)));
        }
        let row = self.settle();
        if row.is_vote_due(seat) {
            return Some(Due::Vote(row.bit()));
        }
        if seat.decided.is_some() {
            return None;
        }
        row.decides(below)
    }
}
