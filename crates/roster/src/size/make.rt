// Making a size, and reading it.
ghost use Rattle.std.specs.Prelude.{◌≡◌, true, false, IfOk, MatchResult};
ghost use Rattle.roster.specs.Quorums.{Quorums};
ghost use Rattle.roster.specs.Sizes.{sized};
ghost use Rattle.roster.specs.declared.denial.Denial.TheVariants.{RosterSize};

use crate::denial::Denial;
use crate::size::Size;

impl Size {
    // Any two numbers: a size, or the refusal of one.
    pub fn new(n: u64, t: u64) -> Result<Size, Denial>
        ensures cases { MatchResult result (λ s. (sized n t ≡ true) × (s.n ≡ n) × (s.t ≡ t)) (λ e. (sized n t ≡ false) × (e ≡ RosterSize)) }
        ensures quorums { IfOk result (λ s. Quorums s.n s.t) }
    {
        if n < 1 || n > 10 || t > 3 || 3 * t >= n {
            return Err(Denial::RosterSize);
        }
        Ok(Size { n, t })
    }

    pub fn n(&self) -> u64
        ensures { result ≡ self.now.n }
    {
        self.n
    }

    pub fn t(&self) -> u64
        ensures { result ≡ self.now.t }
    {
        self.t
    }
}
