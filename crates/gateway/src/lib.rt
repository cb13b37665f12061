// One flight's fuel for callers in C.
#![tactic(auto)]

ghost use Rattle.std.specs.Prelude.{◌≡◌, ◌≤◌, IfOk};
ghost use Rattle.units.specs.Amount.{fuel_limit};
ghost use Rattle.gateway.specs.Flight.{type_of as four_bytes, one_flight, signed};

use book::checked::Book;
use book::checks::check_book;
use estimators::asking::Estimator;
use questions::flight_measure;
use units::codes::Designator;
use units::measures::Kind;
use units::refusals::{Fault, Refusal};

// Four bytes, that may be a type designator.
fn type_of(bytes: &[u8]) -> Result<Designator, Refusal>
    ensures { result ≡ four_bytes bytes.now }
{
    let bytes = <[u8; 4]>::try_from(bytes).map_err(|_| Refusal::OutOfRange(3))?;
    Ok(Designator { bytes })
}

fn fuel_of(book: &[u8], designator: &[u8], kind: u32, amount: u32) -> Result<u64, Refusal>
    ensures is { result ≡ one_flight book.now designator.now kind amount }
    ensures limited { IfOk result (λ grams. grams ≤ fuel_limit) }
{
    check_book(book)?;
    let designator = type_of(designator)?;
    let kind = Kind::try_from(kind).ok();
    // Before the book is made, which checks its bytes once more.
    let measure = flight_measure(designator, kind, Some(amount))?;
    Ok(Book::of(book).ask(designator, measure)?)
}

// The fuel in grams, or minus the number of the refusal: 1 to 7 of the book, then 18 for a type, kind or measure
// that is malformed or out of range, 22 where the type is not known and 23 beyond the model. Numbers for the kind and
// the refusals, since the caller is in C.
#[unsafe(no_mangle)]
pub extern "C" fn tefrill_fuel(book: &[u8], designator: &[u8], kind: u32, measure: u32) -> i64
    ensures { result ≡ signed (one_flight book.now designator.now kind measure) }
{
    match fuel_of(book, designator, kind, measure) {
        Ok(grams) => grams as i64,
        Err(refusal) => -(Fault::from(refusal).number as i64),
    }
}
