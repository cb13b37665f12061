// What an estimator answers.
ghost use Rattle.std.specs.Prelude.{◌≡◌};
ghost use Rattle.estimators.specs.Answers.{known, refusal_for};

use units::refusals::Refusal;

// Why there is no estimate.
#[derive(Clone, Copy, Debug, PartialEq, Eq)]
pub enum NoEstimate {
    // The estimator does not know the type, for that kind of measure.
    NotKnown,
    // It knows the type, and the amount lies beyond its model.
    Beyond,
}

// Grams of fuel for one flight, or why there are none. A number whose bound `ask` promises: a type of its own would be
// taken apart wherever it is scaled, multiplied or printed.
pub type Answer = Result<u64, NoEstimate>;

// Whether the estimator knows the type.
pub fn is_known(answer: Answer) -> bool
    ensures { result ≡ known answer }
{
    answer != Err(NoEstimate::NotKnown)
}

impl From<NoEstimate> for Refusal {
    ghost from_gives = { λ why r. r ≡ refusal_for why };

    fn from(why: NoEstimate) -> Refusal {
        match why {
            NoEstimate::NotKnown => Refusal::TypeUnknown,
            NoEstimate::Beyond => Refusal::BeyondModel,
        }
    }
}
