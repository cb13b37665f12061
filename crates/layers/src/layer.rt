// A short list of types over any estimator.
ghost use Rattle.std.specs.Prelude.{◌≡◌, [], length, is_some, nat_le};
ghost use Rattle.lists.specs.Entries.{entries};
ghost use Rattle.lists.specs.Listing.{listed, added, after_adding};
ghost use Rattle.layers.specs.Above.{capped as at_most};

use estimators::answers::{Answer, NoEstimate};
use lists::item::Item;
use lists::short::ShortList;
use units::amounts::FUEL_LIMIT;
use units::refusals::Refusal;

#[derive(Drop)]
pub struct Layer<E, T: Item> {
    pub(crate) below: E,
    pub(crate) list: ShortList<T, 64>,
}

// For items of any kind. `over` and `add_type` say the same of each kind of this crate, in its own words.
impl<E, T: Item + Default> Layer<E, T> {
    // Nothing listed yet, over an estimator.
    pub fn new(below: E) -> Layer<E, T>
        ensures estimator { result.below ≡ below }
        ensures list { entries result.list ≡ [] }
    {
        Layer {
            below,
            list: ShortList::new(T::default()),
        }
    }
}

impl<E, T: Item> Layer<E, T> {
    // Lists a type; refused, the list stays as it is.
    pub fn add(&mut self, item: T) -> Result<(), Refusal>
        ensures answer { result ≡ added T.OWNER (nat_le 64 (length (entries self.old.list))) (T.formed item) (is_some (listed T.naming (T.naming item) (entries self.old.list))) (T.fitting item) }
        ensures after { entries self.new.list ≡ after_adding result (entries self.old.list) item }
        ensures same { self.new.below ≡ self.old.below }
    {
        self.list.add(item)
    }
}

// More fuel than one flight may have is beyond the model.
pub(crate) fn capped(grams: u64) -> Answer
    ensures { result ≡ at_most grams }
{
    if grams <= FUEL_LIMIT {
        Ok(grams)
    } else {
        Err(NoEstimate::Beyond)
    }
}
