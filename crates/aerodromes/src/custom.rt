// An aerodrome of the operator's own list and its State.
ghost use Rattle.std.specs.Prelude.{◌≡◌};
ghost use Rattle.units.specs.declared.refusals.ListOwner.TheVariants.{OfDirectory};
ghost use Rattle.aerodromes.specs.Custom.{custom_name, custom_formed, custom_fits};

use lists::item::Item;
use units::codes::{AerodromeCode, is_aerodrome_code, is_state};
use units::refusals::ListOwner;

// A code, well formed or not, and a State, in range or not.
#[derive(Clone, Copy, Debug, Default, PartialEq, Eq)]
pub struct CustomAerodrome {
    pub code: AerodromeCode,
    pub state: u16,
}

impl Item for CustomAerodrome {
    ghost naming = { custom_name };

    ghost formed = { custom_formed };

    ghost fitting = { custom_fits };

    ghost OWNER = { OfDirectory };

    const OWNER: ListOwner = ListOwner::OfDirectory;

    fn name(&self) -> [u8; 4] {
        self.code.bytes
    }

    fn is_formed(&self) -> bool {
        is_aerodrome_code(&self.code.bytes)
    }

    fn is_fitting(&self) -> bool {
        is_state(self.state)
    }
}
