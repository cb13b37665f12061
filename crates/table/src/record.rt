// What a record of a table is.
ghost use Rattle.std.specs.Prelude.{◌≡◌};

use keys::key::Key;

pub trait Record: Copy {
    type Key: Key;

    // The key by which it stands in the table.
    ghost keyed: { Self → Self.Key };

    // The record of an unused place.
    ghost unused: { Self };

    fn key(&self) -> Self::Key
        ensures { result ≡ keyed self.now };

    fn blank() -> Self
        ensures { result ≡ unused };
}
