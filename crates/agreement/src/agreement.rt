// One interface with one meaning for every agreement.
ghost use Rattle.std.specs.Prelude.{◌≡◌, true, false, is_ok, Err, Result};
ghost use Rattle.agreement.specs.Laws.{Lawful};
ghost use Rattle.agreement.specs.Views.{View, put_denial, decision_denial, Put, Moved};
ghost use Rattle.roster.specs.Checks.{answer};
ghost use Rattle.roster.specs.declared.denial.Denial.{Denial};
ghost use Rattle.roster.specs.declared.denial.Denial.TheVariants.{IllMatched};
ghost use Rattle.roster.specs.declared.moves.Move.{Move};

use roster::decision::Decision;
use roster::denial::Denial;
use roster::moves::Move;
use roster::roster::Roster;

// An agreement (the field says consensus): each sound seat puts a code, and all sound seats come to the same decision.
pub trait Agreement {
    // what it means: all that its user may go by
    ghost view: { Self → View };

    // what every call keeps, and what the laws follow from
    ghost ok: { Self → Type 0 };

    ghost fresh: { (a : Self) → (view a).untouched ≡ true → ok a };

    ghost lawful: { (a : Self) → ok a → Lawful (view a) };

    // which moves are granted and what they do: the agreement's own rule
    ghost steps: { Self → Move → Result (Unit {0}) Denial → Self → Type 0 };

    // A sound seat's put of a code, once.
    fn put(&mut self, seat: u64, code: u64) -> Result<(), Denial>
        ensures value { result ≡ answer (put_denial (view self.old) seat code) tt }
        ensures same { is_ok result ≡ false → self.new ≡ self.old }
        ensures after { is_ok result ≡ true → Put (view self.old) seat code (view self.new) }
        ensures keeps { ok self.old → ok self.new };

    // A move: something handed over, a seat woken, or a stray act of a faulty seat.
    fn step(&mut self, by: Move) -> Result<(), Denial>
        ensures steps { steps self.old by result self.new }
        ensures matched { (view self.old).fixed.matched ≡ false → result ≡ Err IllMatched }
        ensures same { is_ok result ≡ false → self.new ≡ self.old }
        ensures after { is_ok result ≡ true → Moved (view self.old) (view self.new) }
        ensures keeps { ok self.old → ok self.new };

    // What a sound seat decided, once it has.
    fn decision(&self, seat: u64) -> Result<Option<Decision>, Denial>
        ensures { result ≡ answer (decision_denial (view self.now).fixed seat) ((view self.now).decided seat) };

    // Still (the field says quiescent): nothing is on its way, and nobody has anything to do.
    fn is_still(&self) -> bool
        ensures { result ≡ (view self.now).still };

    fn roster(&self) -> Roster
        ensures { result ≡ (view self.now).fixed.roster };

    // The largest code that may be put.
    fn largest(&self) -> u64
        ensures { result ≡ (view self.now).fixed.largest };

    // Plain (the field says strict validity): Nothing is never decided.
    fn is_plain(&self) -> bool
        ensures { result ≡ (view self.now).fixed.plain };

    // Whether it was made of what it needs.
    fn is_matched(&self) -> bool
        ensures { result ≡ (view self.now).fixed.matched };

    // Whether no put and no move was granted yet.
    fn is_untouched(&self) -> bool
        ensures { result ≡ (view self.now).untouched };
}
