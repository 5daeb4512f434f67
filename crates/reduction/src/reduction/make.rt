// Making a reduction.
ghost use Rattle.std.specs.Prelude.{◌≡◌, true, false, ◌&&◌};
ghost use Rattle.reduction.specs.Parts.{layer_of};
ghost use Rattle.settling.specs.Layers.{meaning};

use crate::reduction::Reduction;
use crate::table::Table;
use agreement::agreement::Agreement;
use carrier::carrier::Carrier;

impl<C: Carrier, B: Agreement> Reduction<C, B> {
    // Any parts and any number. Parts that were used before, or do not fit each other, make it ill-matched.
    pub fn new(carrier: C, below: B, largest: u64) -> Reduction<C, B>
        ensures carrier { result.carrier ≡ carrier }
        ensures below { result.below ≡ below }
        ensures largest { result.largest ≡ largest }
        ensures made { result.made ≡ ((C.Carrier.view carrier).untouched && (B.Agreement.view below).untouched) }
        ensures untouched { (meaning (layer_of C.Carrier B.Agreement result)).untouched ≡ true }
    {
        let made = carrier.is_untouched() && below.is_untouched();
        Reduction {
            carrier,
            below,
            largest,
            made,
            table: Table::new(),
        }
    }
}
