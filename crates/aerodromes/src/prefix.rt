// A prefix of aerodrome codes and the State whose aerodromes have it.
ghost use Rattle.std.specs.Prelude.{◌≡◌};
ghost use Rattle.units.specs.declared.refusals.ListOwner.TheVariants.{OfDirectory};
ghost use Rattle.aerodromes.specs.Prefix.{prefix_name, prefix_formed, prefix_fits};

use lists::item::Item;
use units::codes::{is_character, is_state};
use units::refusals::ListOwner;

// The first two bytes of a code, well formed or not, and a State, in range or not.
#[derive(Clone, Copy, Debug, Default, PartialEq, Eq)]
pub struct Prefix {
    pub first: u8,
    pub second: u8,
    pub state: u16,
}

impl Item for Prefix {
    ghost naming = { prefix_name };

    ghost formed = { prefix_formed };

    ghost fitting = { prefix_fits };

    ghost OWNER = { OfDirectory };

    const OWNER: ListOwner = ListOwner::OfDirectory;

    fn name(&self) -> [u8; 4] {
        [self.first, self.second, 0, 0]
    }

    fn is_formed(&self) -> bool {
        is_character(self.first) && is_character(self.second)
    }

    fn is_fitting(&self) -> bool {
        is_state(self.state)
    }
}
