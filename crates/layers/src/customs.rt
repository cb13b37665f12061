// Custom types by the generic equation, over any estimator.
ghost use Rattle.std.specs.Prelude.{◌≡◌, true, []};
ghost use Rattle.units.specs.declared.refusals.ListOwner.TheVariants.{OfEstimator};
ghost use Rattle.estimators.specs.Answers.{known, within_limit};
ghost use Rattle.lists.specs.Entries.{entries};
ghost use Rattle.lists.specs.Listing.{after_adding};
ghost use Rattle.layers.specs.Custom.{in_category, customs};
ghost use Rattle.layers.specs.Equation.{category_of};
ghost use Rattle.layers.specs.Items.{custom_name, custom_formed, custom_fits, custom_added, equivalent_added};
ghost use Rattle.layers.specs.LayerLaws.{customs_laws};

use crate::category::{Category, by_category};
use crate::equivalents::Equivalents;
use crate::items::{CustomType, Equivalent};
use crate::layer::Layer;
use estimators::answers::{Answer, NoEstimate, is_known};
use estimators::asking::Estimator;
use lists::item::Item;
use lists::short::ShortList;
use units::codes::{Designator, is_designator};
use units::measures::Measure;
use units::refusals::{ListOwner, Refusal};

// Custom types over an estimator.
pub type CustomTypes<E> = Layer<E, CustomType>;

impl Item for CustomType {
    ghost naming = { custom_name };

    ghost formed = { custom_formed };

    ghost fitting = { custom_fits };

    ghost OWNER = { OfEstimator };

    const OWNER: ListOwner = ListOwner::OfEstimator;

    fn name(&self) -> [u8; 4] {
        self.designator.bytes
    }

    fn is_formed(&self) -> bool {
        is_designator(&self.designator.bytes)
    }

    fn is_fitting(&self) -> bool {
        Category::try_from(self.category).is_ok_and(|category| category.has_mass(self.mass))
    }
}

impl CustomType {
    // The fuel of one flight by the equation of its category.
    fn estimate(self, measure: Measure) -> Answer
        ensures { result ≡ in_category self.mass measure (category_of self.category) }
    {
        let category = Category::try_from(self.category).map_err(|_| NoEstimate::NotKnown)?;
        by_category(category, self.mass, measure)
    }
}

impl<E: Estimator> Estimator for Layer<E, CustomType> {
    ghost meaning = { λ s. customs (entries s.list) (E.Estimator.meaning s.below) };

    ghost laws = { customs_laws E.Estimator.meaning E.Estimator.laws (λ s. s.below) (λ s. entries s.list) };

    fn ask(&self, designator: Designator, measure: Measure) -> Answer
        ensures meant { result ≡ customs (entries self.now.list) (E.Estimator.meaning self.now.below) designator measure }
        ensures limited { within_limit result ≡ true }
        ensures known_below { known (E.Estimator.meaning self.now.below designator measure) ≡ true → result ≡ E.Estimator.meaning self.now.below designator measure }
    {
        // The same in both kinds of layer: a helper would take what follows as a closure and be no shorter.
        let own = self.below.ask(designator, measure);
        if is_known(own) {
            return own;
        }
        let item = self
            .list
            .find(designator.bytes)
            .ok_or(NoEstimate::NotKnown)?;
        item.estimate(measure)
    }
}

impl<E> CustomTypes<E> {
    // No custom types yet, over an estimator.
    pub fn over(below: E) -> CustomTypes<E>
        ensures estimator { result.below ≡ below }
        ensures list { entries result.list ≡ [] }
    {
        Layer {
            below,
            list: ShortList::new(CustomType::default()),
        }
    }

    // Lists a type; refused, the list stays as it is.
    pub fn add_type(&mut self, item: CustomType) -> Result<(), Refusal>
        ensures answer { result ≡ custom_added (entries self.old.list) item }
        ensures after { entries self.new.list ≡ after_adding result (entries self.old.list) item }
        ensures same { self.new.below ≡ self.old.below }
    {
        self.list.add(item)
    }
}

impl<E> CustomTypes<Equivalents<E>> {
    // Lists an equivalent in the layer below; refused, everything stays as it is.
    pub fn add_equivalent(&mut self, item: Equivalent) -> Result<(), Refusal>
        ensures answer { result ≡ equivalent_added (entries self.old.below.list) item }
        ensures after { entries self.new.below.list ≡ after_adding result (entries self.old.below.list) item }
        ensures same { (self.new.below.below ≡ self.old.below.below) × (self.new.list ≡ self.old.list) }
    {
        self.below.add_type(item)
    }
}
