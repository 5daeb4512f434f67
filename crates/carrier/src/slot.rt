// The two slots of an origin.
ghost use Rattle.std.specs.Prelude.{◌≡◌};
ghost use Rattle.carrier.specs.Views.{is_slot};

// Whether a number is a slot's.
pub fn is_slot(slot: u64) -> bool
    ensures { result ≡ is_slot slot }
{
    1 <= slot && slot <= 2
}
