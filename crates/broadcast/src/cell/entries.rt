// Reading a cell, and what no rule makes of one: a blank one, and that of a seat that put.
ghost use Rattle.std.specs.Prelude.{◌≡◌};
ghost use Rattle.broadcast.specs.Cells.{blank, with_put};
ghost use Rattle.broadcast.specs.Rules.{arrived, got, handed, sent};

use crate::cell::Cell;
use crate::letter::Kind;
use roster::votes::said_by;

impl Cell {
    // Nothing counted, sent or held. A derived default would promise less of its arrays.
    pub fn blank() -> Cell
        ensures { result ≡ blank }
    {
        Cell {
            init: None,
            echo: [None; 10],
            ready: [None; 10],
            put: None,
            echoed: None,
            readied: None,
            held: None,
        }
    }

    // The origin sends an INIT, which its own cell keeps.
    pub fn send_init(&mut self, code: u64)
        ensures { self.new ≡ with_put self.old code }
    {
        self.put = Some(code);
    }

    // The letter of a kind that the seat of this cell sent.
    pub fn sent(&self, kind: Kind) -> Option<u64>
        ensures { result ≡ sent kind self.now }
    {
        match kind {
            Kind::Init => self.put,
            Kind::Echo => self.echoed,
            Kind::Ready => self.readied,
        }
    }

    // The letter of a kind that the seat of this cell counted of a sender.
    pub fn counted(&self, kind: Kind, sender: u64) -> Option<u64>
        ensures { result ≡ got kind sender self.now }
    {
        match kind {
            Kind::Init => self.init,
            Kind::Echo => said_by(&self.echo, sender),
            Kind::Ready => said_by(&self.ready, sender),
        }
    }

    // Whether the letter of a kind, if the sender's cell says that it was sent, was counted in this one.
    fn has_counted(&self, kind: Kind, sender: u64, there: &Cell) -> bool
        ensures { result ≡ arrived kind sender there.now self.now }
    {
        there.sent(kind).is_none() || self.counted(kind, sender).is_some()
    }

    // Whether all that the sender's cell says it sent was counted in this one.
    pub fn has_counted_all(&self, sender: u64, there: &Cell) -> bool
        ensures { result ≡ handed sender there.now self.now }
    {
        self.has_counted(Kind::Init, sender, there)
            && self.has_counted(Kind::Echo, sender, there)
            && self.has_counted(Kind::Ready, sender, there)
    }
}
