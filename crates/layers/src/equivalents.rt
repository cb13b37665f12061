// Types that take the answer of another type, over any estimator.
ghost use Rattle.std.specs.Prelude.{◌≡◌, true, []};
ghost use Rattle.units.specs.declared.refusals.ListOwner.TheVariants.{OfEstimator};
ghost use Rattle.estimators.specs.Answers.{known, within_limit};
ghost use Rattle.lists.specs.Entries.{entries};
ghost use Rattle.lists.specs.Listing.{after_adding};
ghost use Rattle.layers.specs.Items.{equivalent_name, equivalent_formed, equivalent_fits, equivalent_added, ratio_part};
ghost use Rattle.layers.specs.Equivalence.{scaled as times, equivalents};
ghost use Rattle.layers.specs.LayerLaws.{equivalents_laws};

use crate::items::Equivalent;
use crate::layer::{Layer, capped};
use estimators::answers::{Answer, NoEstimate, is_known};
use estimators::asking::Estimator;
use lists::item::Item;
use lists::short::ShortList;
use units::amounts::nearest;
use units::codes::{Designator, is_designator};
use units::measures::Measure;
use units::refusals::{ListOwner, Refusal};

// Equivalents over an estimator.
pub type Equivalents<E> = Layer<E, Equivalent>;

fn is_ratio_part(n: u32) -> bool
    ensures { result ≡ ratio_part n }
{
    matches!(n, 1..=10_000)
}

impl Item for Equivalent {
    ghost naming = { equivalent_name };

    ghost formed = { equivalent_formed };

    ghost fitting = { equivalent_fits };

    ghost OWNER = { OfEstimator };

    const OWNER: ListOwner = ListOwner::OfEstimator;

    fn name(&self) -> [u8; 4] {
        self.designator.bytes
    }

    fn is_formed(&self) -> bool {
        is_designator(&self.designator.bytes) && is_designator(&self.named.bytes)
    }

    fn is_fitting(&self) -> bool {
        is_ratio_part(self.p) && is_ratio_part(self.q)
    }
}

impl Equivalent {
    // An answer times p / q, to the nearest gram.
    fn scaled(self, answer: Answer) -> Answer
        requires { within_limit answer ≡ true }
        ensures { result ≡ times self.p self.q answer }
    {
        let grams = answer?;
        capped(nearest(grams * self.p as u64, self.q as u64))
    }
}

impl<E: Estimator> Estimator for Layer<E, Equivalent> {
    ghost meaning = { λ s. equivalents (entries s.list) (E.Estimator.meaning s.below) };

    ghost laws = { equivalents_laws E.Estimator.meaning E.Estimator.laws (λ s. s.below) (λ s. entries s.list) };

    fn ask(&self, designator: Designator, measure: Measure) -> Answer
        ensures meant { result ≡ equivalents (entries self.now.list) (E.Estimator.meaning self.now.below) designator measure }
        ensures limited { within_limit result ≡ true }
        ensures known_below { known (E.Estimator.meaning self.now.below designator measure) ≡ true → result ≡ E.Estimator.meaning self.now.below designator measure }
    {
        // The same in both kinds of layer: a helper would take what follows as a closure and be no shorter.
        let own = self.below.ask(designator, measure);
        if is_known(own) {
            return own;
        }
        let item = self
            .list
            .find(designator.bytes)
            .ok_or(NoEstimate::NotKnown)?;
        item.scaled(self.below.ask(item.named, measure))
    }
}

impl<E> Equivalents<E> {
    // No equivalents yet, over an estimator.
    pub fn over(below: E) -> Equivalents<E>
        ensures estimator { result.below ≡ below }
        ensures list { entries result.list ≡ [] }
    {
        Layer {
            below,
            list: ShortList::new(Equivalent::default()),
        }
    }

    // Lists a type; refused, the list stays as it is.
    pub fn add_type(&mut self, item: Equivalent) -> Result<(), Refusal>
        ensures answer { result ≡ equivalent_added (entries self.old.list) item }
        ensures after { entries self.new.list ≡ after_adding result (entries self.old.list) item }
        ensures same { self.new.below ≡ self.old.below }
    {
        self.list.add(item)
    }
}
