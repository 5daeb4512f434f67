// One interface with one meaning for every carrier.
ghost use Rattle.std.specs.Prelude.{◌≡◌, true, false, is_ok, Err, Result};
ghost use Rattle.carrier.specs.Laws.{Lawful};
ghost use Rattle.carrier.specs.Views.{View, put_denial, holds_denial, Put, Moved};
ghost use Rattle.roster.specs.Checks.{answer};
ghost use Rattle.roster.specs.declared.denial.Denial.{Denial};
ghost use Rattle.roster.specs.declared.denial.Denial.TheVariants.{IllMatched};
ghost use Rattle.roster.specs.declared.moves.Move.{Move};

use roster::denial::Denial;
use roster::moves::Move;
use roster::roster::Roster;

// A carrier (the field says broadcast channel) brings what each seat put for a slot to all sound seats: what they hold from an origin.
pub trait Carrier {
    // what it means: all that its user may go by
    ghost view: { Self → View };

    // what every call keeps, and what the laws follow from
    ghost ok: { Self → Type 0 };

    ghost fresh: { (c : Self) → (view c).untouched ≡ true → ok c };

    ghost lawful: { (c : Self) → ok c → Lawful (view c) };

    // which moves are granted and what they do: the carrier's own rule
    ghost steps: { Self → Move → Result (Unit {0}) Denial → Self → Type 0 };

    // A sound seat's put of a code for a slot, once.
    fn put(&mut self, seat: u64, slot: u64, code: u64) -> Result<(), Denial>
        ensures value { result ≡ answer (put_denial (view self.old) seat slot) tt }
        ensures same { is_ok result ≡ false → self.new ≡ self.old }
        ensures after { is_ok result ≡ true → Put (view self.old) seat slot code (view self.new) }
        ensures keeps { ok self.old → ok self.new };

    // A move: something handed over, or a stray act of a faulty seat. Which moves are granted is the carrier's own rule.
    fn step(&mut self, by: Move) -> Result<(), Denial>
        ensures steps { steps self.old by result self.new }
        ensures matched { (view self.old).fixed.matched ≡ false → result ≡ Err IllMatched }
        ensures same { is_ok result ≡ false → self.new ≡ self.old }
        ensures after { is_ok result ≡ true → Moved (view self.old) (view self.new) }
        ensures keeps { ok self.old → ok self.new };

    // What a sound seat holds from an origin and slot.
    fn holds(&self, seat: u64, origin: u64, slot: u64) -> Result<Option<u64>, Denial>
        ensures { result ≡ answer (holds_denial (view self.now).fixed seat origin slot) ((view self.now).held seat origin slot) };

    // Still (the field says quiescent): nothing is on its way.
    fn is_still(&self) -> bool
        ensures { result ≡ (view self.now).still };

    fn roster(&self) -> Roster
        ensures { result ≡ (view self.now).fixed.roster };

    // Whether it was made of what it needs.
    fn is_matched(&self) -> bool
        ensures { result ≡ (view self.now).fixed.matched };

    // Whether no put and no move was granted yet.
    fn is_untouched(&self) -> bool
        ensures { result ≡ (view self.now).untouched };
}
