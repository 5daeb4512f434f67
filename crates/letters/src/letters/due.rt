// Which letter a move has the receiver count: the checks in their order.
ghost use Rattle.std.specs.Prelude.{◌≡◌, is_some};
ghost use Rattle.broadcast.specs.Moves.{due, due_of, from_origin, in_range, is_stray, receiver, seats_fit, told};
ghost use Rattle.broadcast.specs.Rules.{got};

use crate::letters::rows::Rows;
use broadcast::letter::{Kind, Letter};
use carrier::slot::is_slot;
use roster::denial::Denial;
use roster::moves::{Move, MoveKind};

// The rules speak of a move as it came in, and so its kind is read from it where it is asked for.
fn is_stray(by: Move) -> bool
    ensures { result ≡ is_stray by }
{
    by.kind == u64::from(MoveKind::Stray)
}

// Only an INIT has to come from its origin.
fn is_from_origin(kind: Kind, sender: u64, origin: u64) -> bool
    ensures { result ≡ from_origin kind sender origin }
{
    match kind {
        Kind::Init => sender == origin,
        Kind::Echo | Kind::Ready => true,
    }
}

impl Rows<'_> {
    fn is_in_range(&self, by: Move, kind: Kind) -> bool
        ensures { result ≡ in_range self.now.roster.size.n kind by }
    {
        self.roster.has(by.from)
            && self.roster.has(by.to)
            && self.roster.has(by.origin)
            && is_slot(by.slot)
            && is_from_origin(kind, by.from, by.origin)
    }

    // Whether the receiver is sound, and the sender of a stray letter faulty.
    fn has_fit_seats(&self, by: Move) -> bool
        ensures { result ≡ seats_fit self.now.roster by }
    {
        self.roster.is_sound(by.to) && (!is_stray(by) || !self.roster.is_sound(by.from))
    }

    // The code that the letter has: as stated in a stray one, else as sent. A faulty seat has sent none.
    #[tactic(auto, using(broadcast::proofs::Rows::sent_out))]
    fn told_code(&self, by: Move, kind: Kind) -> Option<u64>
        ensures { result ≡ told self.now.roster self.now.cells.now by kind }
    {
        if is_stray(by) {
            return Some(by.code);
        }
        if !self.roster.is_sound(by.from) {
            return None;
        }
        self.cell(by.from, by.origin, by.slot)?.sent(kind)
    }

    // What the receiver has counted before.
    #[tactic(auto, using(broadcast::proofs::Rows::got_out))]
    fn counted_code(&self, by: Move, kind: Kind) -> Option<u64>
        ensures { result ≡ got kind by.from (receiver self.now.roster self.now.cells.now by) }
    {
        self.cell(by.to, by.origin, by.slot)?.counted(kind, by.from)
    }

    fn letter_of(&self, by: Move, kind: Kind) -> Result<Letter, Denial>
        ensures { result ≡ due_of self.now.roster self.now.cells.now by kind }
    {
        if !self.is_in_range(by, kind) {
            return Err(Denial::OutOfRange);
        }
        if !self.has_fit_seats(by) {
            return Err(Denial::FaultySeat);
        }
        let code = self.told_code(by, kind).ok_or(Denial::NothingDue)?;
        if self.counted_code(by, kind).is_some() {
            return Err(Denial::HandedBefore);
        }
        Ok(Letter {
            kind,
            sender: by.from,
            code,
        })
    }

    // The letter that a move has its receiver count, or why it is denied.
    #[tactic(auto, using(broadcast::proofs::Moves::unnamed))]
    pub(super) fn letter_due(&self, by: Move) -> Result<Letter, Denial>
        ensures { result ≡ due self.now.roster self.now.cells.now by }
    {
        match MoveKind::try_from(by.kind)? {
            MoveKind::Stray | MoveKind::HandOver => {}
            MoveKind::Wake => return Err(Denial::NoSuchAddress),
        }
        self.letter_of(by, Kind::try_from(by.letter)?)
    }
}
