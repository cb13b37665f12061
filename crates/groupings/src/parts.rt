// The part that an entry has in a sum table.
ghost use Rattle.std.specs.Prelude.{◌≡◌};
ghost use Rattle.groupings.specs.Groups.{part_of};

use crate::grouping::Grouping;
use keys::key::Key;
use sums::amounts::Amounts;
use sums::rows::Row;
use units::worked::WorkedEntry;

// The row that an entry adds to a table of its grouping; none where its flights are exempt.
pub fn part<G: Grouping>(worked: &WorkedEntry) -> Option<Row<G::Key>>
    ensures { result ≡ part_of G.grouped worked.now }
{
    (!worked.entry.exempt).then(|| Row {
        key: G::key(worked),
        amounts: Amounts {
            flights: worked.entry.flights,
            fuel: worked.fuel,
            co2: worked.co2,
        },
    })
}
