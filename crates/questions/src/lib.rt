// Questions to any estimator and any directory: what was given is looked at first.
#![tactic(auto)]

ghost use Rattle.std.specs.Prelude.{◌≡◌, ◌≤◌, IfOk};
ghost use Rattle.units.specs.Amount.{fuel_limit};
ghost use Rattle.questions.specs.Questions.{flight_asked, fuel_asked, state_asked};

use aerodromes::directory::Directory;
use estimators::asking::Estimator;
use units::codes::{AerodromeCode, Designator, is_aerodrome_code, is_designator};
use units::measures::{Kind, Measure};
use units::refusals::{Refusal, hold};

// The measure of one flight, when its type, kind and amount pass their checks; a kind or an amount that could not be read
// is given as none. It asks no estimator, for callers whose estimator takes work to make.
pub fn flight_measure(
    designator: Designator,
    kind: Option<Kind>,
    amount: Option<u32>,
) -> Result<Measure, Refusal>
    ensures { result ≡ flight_asked designator kind amount }
{
    hold(is_designator(&designator.bytes), Refusal::OutOfRange(3))?;
    let kind = kind.ok_or(Refusal::OutOfRange(6))?;
    let amount = amount.ok_or(Refusal::OutOfRange(7))?;
    let measure = Measure { kind, amount };
    hold(measure.is_in_range(), Refusal::OutOfRange(7))?;
    Ok(measure)
}

// The fuel of one flight in grams; what was given is looked at before the estimator is asked.
pub fn flight_fuel<E: Estimator>(
    estimator: &E,
    designator: Designator,
    kind: Option<Kind>,
    amount: Option<u32>,
) -> Result<u64, Refusal>
    ensures is { result ≡ fuel_asked (E.Estimator.meaning estimator.now) designator kind amount }
    ensures limited { IfOk result (λ grams. grams ≤ fuel_limit) }
{
    let measure = flight_measure(designator, kind, amount)?;
    Ok(estimator.ask(designator, measure)?)
}

// The State of an aerodrome.
pub fn aerodrome_state<D: Directory>(directory: &D, code: AerodromeCode) -> Result<u16, Refusal>
    ensures { result ≡ state_asked (D.Directory.meaning directory.now) code }
{
    hold(is_aerodrome_code(&code.bytes), Refusal::OutOfRange(4))?;
    directory.state_of(code).ok_or(Refusal::DepartureUnknown)
}
