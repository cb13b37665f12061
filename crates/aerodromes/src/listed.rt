// The aerodromes of a checked book as a directory.
ghost use Rattle.std.specs.Prelude.{◌≡◌};
ghost use Rattle.book.specs.Reading.{contents};
ghost use Rattle.aerodromes.specs.Listed.{listed_state};
ghost use Rattle.aerodromes.specs.BookLaws.{book_laws};

use crate::directory::Directory;
use book::checked::Book;
use units::codes::AerodromeCode;

impl Directory for Book<'_> {
    ghost meaning = { λ b. listed_state (contents b) };

    ghost laws = { book_laws };

    fn state_of(&self, code: AerodromeCode) -> Option<u16>
        ensures { result ≡ listed_state (contents self.now) code }
    {
        let place = self.find_aerodrome(code)?;
        let aerodrome = self.aerodrome(place)?;
        Some(aerodrome.state)
    }
}
