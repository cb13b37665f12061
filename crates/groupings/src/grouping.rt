// What groups worked-out entries: the number of the table and the key of an entry.
ghost use Rattle.std.specs.Prelude.{◌≡◌, ℕ};
ghost use Rattle.units.specs.declared.worked.WorkedEntry.{WorkedEntry};

use keys::key::Key;
use units::worked::WorkedEntry;

pub trait Grouping {
    // Its keys, with their total order.
    type Key: Key;

    // The number of its table.
    ghost TABLE: { ℕ };

    const TABLE: usize;

    ghost grouped: { WorkedEntry → Self.Key };

    // The key under which an entry is summed up.
    fn key(worked: &WorkedEntry) -> Self::Key
        ensures { result ≡ grouped worked.now };
}
