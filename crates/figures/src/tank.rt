// The tanks.
ghost use Rattle.std.specs.Prelude.{◌≡◌};
ghost use Rattle.figures.specs.Figures.{is_tank};

// Whether a number is a tank's.
pub(crate) fn is_tank(tank: u64) -> bool
    ensures { result ≡ is_tank tank }
{
    1 <= tank && tank <= 99
}
