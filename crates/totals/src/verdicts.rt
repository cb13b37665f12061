// The verdict of a year.
ghost use Rattle.std.specs.Prelude.{◌≡◌};
ghost use Rattle.totals.specs.Verdicts.{verdict_number, verdict_of, Drawn};

use crate::totals::Totals;
use units::amounts::TONNE;

#[derive(Clone, Copy, Debug, PartialEq, Eq)]
pub enum Verdict {
    // at most 10,000 t of international CO2
    BelowThreshold,
    EstimationAllowed,
    FuelUseMonitoring,
}

// Its number.
impl From<Verdict> for u32 {
    ghost from_gives = { λ verdict r. r ≡ verdict_number verdict };

    fn from(verdict: Verdict) -> u32 {
        match verdict {
            Verdict::BelowThreshold => 1,
            Verdict::EstimationAllowed => 2,
            Verdict::FuelUseMonitoring => 3,
        }
    }
}

// From exact amounts, never from rounded tonnes.
pub fn judge(year: u16, totals: Totals) -> Verdict
    ensures is { result ≡ verdict_of year totals }
    ensures drawn { Drawn year totals result }
{
    let tonne = u128::from(TONNE);
    if totals.international <= 10_000 * tonne {
        return Verdict::BelowThreshold;
    }
    let monitored = match year {
        2019..=2020 => totals.international >= 500_000 * tonne,
        2021..=2035 => totals.subject >= 50_000 * tonne,
        _ => false,
    };
    if monitored {
        Verdict::FuelUseMonitoring
    } else {
        Verdict::EstimationAllowed
    }
}
