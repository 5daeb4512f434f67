// What a sound seat does. The rules take a size and a cell, never a roster: no sound seat knows which others are faulty.
ghost use Rattle.std.specs.Prelude.{◌≡◌, ◌-◌, Some, slice_set};
ghost use Rattle.broadcast.specs.Cells.{once};
ghost use Rattle.broadcast.specs.Rules.{counted, counted_echo, counted_init, counted_ready};

use crate::cell::Cell;
use crate::letter::{Kind, Letter};
use roster::size::Size;
use roster::votes::{count_votes, set_seat};

// What is sent or held once stays; else it is the code, where that is due. A test of both Options: `or` with `then_some` makes a delivery slower
// by a third.
fn only_once(before: Option<u64>, due: bool, code: u64) -> Option<u64>
    ensures { result ≡ once before due code }
{
    match before {
        None if due => Some(code),
        _ => before,
    }
}

impl Cell {
    fn count_init(&mut self, code: u64)
        ensures { self.new ≡ counted_init self.old code }
    {
        self.init = Some(code);
        self.echoed = Some(code);
    }

    fn count_echo(&mut self, size: Size, letter: Letter)
        ensures { self.new ≡ counted_echo size.n size.t self.old (slice_set self.old.echo (letter.sender - 1) (Some letter.code)) letter.code }
    {
        let code = letter.code;
        set_seat(&mut self.echo, letter.sender, Some(code));
        let quorum = count_votes(size, &self.echo, code) >= size.echo_quorum();
        self.readied = only_once(self.readied, quorum, code);
    }

    fn count_ready(&mut self, size: Size, letter: Letter)
        ensures { self.new ≡ counted_ready size.n size.t self.old (slice_set self.old.ready (letter.sender - 1) (Some letter.code)) letter.code }
    {
        let code = letter.code;
        set_seat(&mut self.ready, letter.sender, Some(code));
        let votes = count_votes(size, &self.ready, code);
        self.readied = only_once(self.readied, votes >= size.one_sound(), code);
        self.held = only_once(self.held, votes >= size.ready_quorum(), code);
    }

    // Its seat counts a letter, and does what the rules ask.
    pub fn count(&mut self, size: Size, letter: Letter)
        ensures { self.new ≡ counted size.n size.t letter self.old }
    {
        match letter.kind {
            Kind::Init => self.count_init(letter.code),
            Kind::Echo => self.count_echo(size, letter),
            Kind::Ready => self.count_ready(size, letter),
        }
    }
}
