// What every kind of figure has.
ghost use Rattle.std.specs.Prelude.{◌≡◌, ℕ, ◌≤◌, Bool, true, if◌then◌else◌, Ok, Err, MatchOption, ◌≢◌};
ghost use Rattle.roster.specs.declared.denial.Denial.TheVariants.{FigureRange};

use roster::denial::Denial;

// A kind of figure. A figure may hold any numbers; a proper one has its parts in their ranges, and only such a one has a code.
pub trait Figure: Sized {
    // the largest code that a figure of this kind writes
    const LARGEST: u64;

    ghost largest: { ℕ };

    ghost proper: { Self → Bool };

    // the code that a proper figure writes
    ghost written: { Self → ℕ };

    // The constant, for code that is generic in the kind: there only a contract tells its value.
    fn largest_code() -> u64
        ensures { result ≡ largest };

    // The figure's code, or the refusal of one that is out of range.
    fn code(&self) -> Result<u64, Denial>
        ensures { result ≡ (if proper self.now then Ok (written self.now) else Err FigureRange) };

    // The figure that writes this code, if there is one.
    fn read(code: u64) -> Option<Self>
        ensures { MatchOption result ((f : Self) → proper f ≡ true → written f ≢ code) (λ f. (proper f ≡ true) × (written f ≡ code)) };

    ghost bound: { (f : Self) → proper f ≡ true → written f ≤ largest };

    ghost attained: { (f : Self) × (proper f ≡ true) × (written f ≡ largest) };

    // no two figures share a code
    ghost apart: { (f g : Self) → proper f ≡ true → proper g ≡ true → written f ≡ written g → f ≡ g };
}
