// Custom aerodromes over any directory, as a directory.
ghost use Rattle.std.specs.Prelude.{◌≡◌, []};
ghost use Rattle.lists.specs.Listing.{after_adding};
ghost use Rattle.aerodromes.specs.Customised.{aerodromes_of, custom_state, custom_added};
ghost use Rattle.aerodromes.specs.CustomLaws.{custom_laws};

use crate::custom::CustomAerodrome;
use crate::directory::Directory;
use lists::short::ShortList;
use units::codes::AerodromeCode;
use units::refusals::Refusal;

// Custom aerodromes, each with a State from 1 to 193, and the directory asked after them. Not the estimators' `Layer`,
// which stands in a crate of its own: moved below both, it could take no `impl` of `Estimator` there.
#[derive(Drop)]
pub struct CustomAerodromes<D> {
    below: D,
    list: ShortList<CustomAerodrome, 64>,
}

impl<D: Directory> CustomAerodromes<D> {
    // No custom aerodrome over that directory.
    pub fn new(below: D) -> CustomAerodromes<D>
        ensures none { aerodromes_of result ≡ [] }
        ensures over { result.below ≡ below }
    {
        CustomAerodromes {
            below,
            list: ShortList::new(CustomAerodrome::default()),
        }
    }

    // Adds an aerodrome. Refused, the list stays as it is.
    pub fn add(&mut self, item: CustomAerodrome) -> Result<(), Refusal>
        ensures answer { result ≡ custom_added (aerodromes_of self.old) item }
        ensures after { aerodromes_of self.new ≡ after_adding result (aerodromes_of self.old) item }
        ensures same { self.new.below ≡ self.old.below }
    {
        self.list.add(item)
    }
}

impl<D: Directory> Directory for CustomAerodromes<D> {
    ghost meaning = { λ l. custom_state (aerodromes_of l) (D.Directory.meaning l.below) };

    ghost laws = { custom_laws D.Directory.meaning D.Directory.laws };

    fn state_of(&self, code: AerodromeCode) -> Option<u16>
        ensures { result ≡ custom_state (aerodromes_of self.now) (D.Directory.meaning self.now.below) code }
    {
        self.list
            .find(code.bytes)
            .map(|aerodrome| aerodrome.state)
            .or_else(|| self.below.state_of(code))
    }
}
