// A book that has passed the check.
ghost use Rattle.std.specs.Prelude.{◌≡◌, true};
ghost use Rattle.book.specs.Check.{sound};
ghost use Rattle.book.specs.Parts.{sections};

use crate::format::Parts;

// The sections of a book's bytes, of which no item is wrong.
#[derive(Clone, Copy)]
pub struct Book<'a> {
    pub(crate) parts: Parts<'a>,
    ghost good: { sound (sections parts) ≡ true },
}
