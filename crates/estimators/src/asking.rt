// What every estimator is.
ghost use Rattle.std.specs.Prelude.{◌≡◌, true};
ghost use Rattle.units.specs.declared.codes.Designator.{Designator};
ghost use Rattle.units.specs.declared.measures.Measure.{Measure};
ghost use Rattle.estimators.specs.Answers.{Answer, within_limit};
ghost use Rattle.estimators.specs.Laws.{Laws};

use crate::answers::Answer;
use units::codes::Designator;
use units::measures::Measure;

pub trait Estimator {
    // The fuel of one flight, for every type and measure.
    ghost meaning: { Self → Designator → Measure → Answer };

    // What each implementation shows of its meaning.
    ghost laws: { Laws meaning };

    fn ask(&self, designator: Designator, measure: Measure) -> Answer
        ensures meant { result ≡ meaning self.now designator measure }
        ensures limited { within_limit result ≡ true };
}
