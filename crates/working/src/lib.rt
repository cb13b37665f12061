// The worked-out entry: its States, its fuel and CO2, its marks.
#![tactic(auto)]

ghost use Rattle.std.specs.Prelude.{◌≡◌, ◌≤◌, IfOk};
ghost use Rattle.working.specs.Working.{for_all, fuel_of, is_far, marks_of, worked_out};

use aerodromes::directory::Directory;
use estimators::answers::Answer;
use estimators::asking::Estimator;
use units::amounts::co2;
use units::entries::Entry;
use units::refusals::Refusal;
use units::worked::{Marks, WorkedEntry};

// The estimate for all the flights.
fn estimate<E: Estimator>(estimator: &E, entry: Entry) -> Answer
    requires { entry.flights ≤ 1000 }
    ensures is { result ≡ for_all entry.flights (E.Estimator.meaning estimator.now entry.designator entry.measure) }
    ensures small { IfOk result (λ grams. grams ≤ 400000000000) }
{
    let grams = estimator.ask(entry.designator, entry.measure)?;
    Ok(grams * entry.flights as u64)
}

// What was reported, or else the estimate: its CO2 fits 64 bits.
fn fuel(reported: Option<u32>, estimate: Answer) -> Result<u64, Refusal>
    requires { IfOk estimate (λ grams. grams ≤ 400000000000) }
    ensures is { result ≡ fuel_of reported estimate }
    ensures small { IfOk result (λ grams. grams ≤ 4294967296000) }
{
    match reported {
        Some(kilograms) => Ok(1_000 * kilograms as u64),
        None => Ok(estimate?),
    }
}

fn is_far_from(fuel: u64, product: u64) -> bool
    ensures { result ≡ is_far fuel product }
{
    2 * (fuel as u128) < product as u128 || 2 * (product as u128) < fuel as u128
}

fn marks(reported: Option<u32>, estimate: Answer) -> Marks
    ensures { result ≡ marks_of reported estimate }
{
    match (reported, estimate) {
        (None, _) => Marks {
            gap: true,
            ..Marks::default()
        },
        (Some(kilograms), Ok(product)) => Marks {
            far: is_far_from(1_000 * kilograms as u64, product),
            ..Marks::default()
        },
        (Some(_), Err(_)) => Marks {
            unchecked: true,
            ..Marks::default()
        },
    }
}

// The entry with all that its rows need, or the first check that it fails: its ranges, its aerodromes, and, without a
// reported fuel, its estimate.
#[tactic(auto, using(crate::proofs::Flights::few_flights))]
pub fn work_out<E: Estimator, D: Directory>(
    estimator: &E,
    directory: &D,
    entry: Entry,
) -> Result<WorkedEntry, Refusal>
    ensures { result ≡ worked_out (E.Estimator.meaning estimator.now) (D.Directory.meaning directory.now) entry }
{
    entry.check()?;
    let from = directory
        .state_of(entry.departure)
        .ok_or(Refusal::DepartureUnknown)?;
    let to = directory
        .state_of(entry.arrival)
        .ok_or(Refusal::ArrivalUnknown)?;
    let estimate = estimate(estimator, entry);
    let fuel = fuel(entry.reported, estimate)?;
    Ok(WorkedEntry {
        entry,
        from,
        to,
        fuel,
        co2: co2(fuel) as u64,
        marks: marks(entry.reported, estimate),
        under_query: false,
    })
}
