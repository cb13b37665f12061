// What a program looks at before the first line of its file.
#![tactic(auto)]

ghost use Rattle.std.specs.Prelude.{◌≡◌};
ghost use Rattle.files.specs.Files.{files_checked};

use book::checks::check_book;
use book::format::Header;
use units::refusals::Refusal;

// The most bytes of a file.
pub const LONGEST_FILE: usize = 65_536;

// The header of the book, or the first check that the two files fail: the length of each, then the book's own checks.
pub fn check_files(book: &[u8], lines: &[u8]) -> Result<Header, Refusal>
    ensures { result ≡ files_checked book.now lines.now }
{
    if book.len() > LONGEST_FILE {
        return Err(Refusal::BookLength);
    }
    if lines.len() > LONGEST_FILE {
        return Err(Refusal::LineLength);
    }
    check_book(book)
}
