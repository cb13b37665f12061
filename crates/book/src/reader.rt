// Readers of a checked book.
ghost use Rattle.std.specs.Prelude.{◌≡◌, length};
ghost use Rattle.book.specs.Bytes.{items, items_of};
ghost use Rattle.book.specs.Check.{spelled};
ghost use Rattle.book.specs.Contents.{columns, column_of, row_in, row_of, fuel_count_of, fuel_of, row_place, aerodrome_in, aerodrome_of, aerodrome_place, takes_part};
ghost use Rattle.book.specs.Parts.{sections};
ghost use Rattle.book.specs.Promise.{Promises};
ghost use Rattle.book.specs.Reading.{contents};

use crate::bytes::{items as items_in, search};
use crate::checked::Book;
use crate::checks::{check_book, column_at, fuel_at};
use crate::format::{Aerodrome, Parts, Row, Tier, cut};
use units::codes::{AerodromeCode, Designator};
use units::marks;
use units::measures::Kind;

// The sections of the book that the bytes spell; of bytes that the check refuses, empty ones.
fn parts_of(bytes: &[u8]) -> Parts<'_>
    ensures is { sections result ≡ spelled bytes.now }
    ensures promises { Promises (sections result) }
{
    match check_book(bytes) {
        Ok(header) => cut(bytes, header),
        Err(_) => Parts {
            distances: &[],
            times: &[],
            rows: &[],
            aerodromes: &[],
            marks: &[],
        },
    }
}

fn row_in(bytes: &[u8; 104]) -> Option<Row>
    ensures { result ≡ row_in bytes.now }
{
    let [a, b, c, d, kind, tier, fuels, ..] = *bytes;
    Some(Row {
        designator: Designator {
            bytes: [a, b, c, d],
        },
        kind: Kind::try_from(kind as u32).ok()?,
        tier: Tier::try_from(tier).ok()?,
        fuels: fuels as usize,
    })
}

fn aerodrome_in(bytes: &[u8; 8]) -> Aerodrome
    ensures { result ≡ aerodrome_in bytes.now }
{
    let [a, b, c, d, low, high, ..] = *bytes;
    Aerodrome {
        code: AerodromeCode {
            bytes: [a, b, c, d],
        },
        state: u16::from_le_bytes([low, high]),
    }
}

impl<'a> Book<'a> {
    // The book that the bytes spell; of bytes that the check refuses, an empty one.
    pub fn of(bytes: &'a [u8]) -> Book<'a>
        ensures is { contents result ≡ spelled bytes.now }
        ensures promises { Promises (contents result) }
    {
        Book {
            parts: parts_of(bytes),
        }
    }

    fn rows(&self) -> &'a [[u8; 104]]
        ensures is { result.now ≡ items_of 104 (contents self.now).rows }
        ensures many { length result.now ≡ items 104 (contents self.now).rows }
    {
        items_in(self.parts.rows)
    }

    fn aerodromes(&self) -> &'a [[u8; 8]]
        ensures is { result.now ≡ items_of 8 (contents self.now).aerodromes }
        ensures many { length result.now ≡ items 8 (contents self.now).aerodromes }
    {
        items_in(self.parts.aerodromes)
    }

    // The columns of a kind.
    fn columns(&self, kind: Kind) -> &'a [u8]
        ensures { result.now ≡ columns (contents self.now) kind }
    {
        match kind {
            Kind::Distance => self.parts.distances,
            Kind::Time => self.parts.times,
        }
    }

    // The column at `i`, in kilometres or minutes; 0 past the last.
    pub fn column(&self, kind: Kind, i: usize) -> u16
        ensures { result ≡ column_of (contents self.now) kind i }
    {
        column_at(self.columns(kind), i)
    }

    // Row `i`; none past the last.
    #[tactic(auto, using(crate::proofs::Fronts::item_at))]
    pub fn row(&self, i: usize) -> Option<Row>
        ensures { result ≡ row_of (contents self.now) i }
    {
        row_in(self.rows().get(i)?)
    }

    // How many fuels row `i` has; 0 past the last row.
    #[tactic(auto, using(crate::proofs::Fronts::item_at))]
    pub fn fuel_count(&self, i: usize) -> usize
        ensures { result ≡ fuel_count_of (contents self.now) i }
    {
        self.rows().get(i).map_or(0, |row| row[6] as usize)
    }

    // Fuel `j` of row `i`, in kilograms; 0 past the last row or the last place for a fuel.
    #[tactic(auto, using(crate::proofs::Fronts::item_at))]
    pub fn fuel(&self, i: usize, j: usize) -> u32
        ensures { result ≡ fuel_of (contents self.now) i j }
    {
        match self.rows().get(i) {
            Some(row) if j < 24 => fuel_at(row, j),
            _ => 0,
        }
    }

    // The place of the row of a type and kind.
    pub fn find_row(&self, designator: Designator, kind: Kind) -> Option<usize>
        ensures { result ≡ row_place (contents self.now) designator kind }
    {
        let [a, b, c, d] = designator.bytes;
        let key = [a, b, c, d, u8::from(kind)];
        search(self.rows(), &key).ok()
    }

    // Aerodrome `i`; none past the last.
    #[tactic(auto, using(crate::proofs::Fronts::item_at))]
    pub fn aerodrome(&self, i: usize) -> Option<Aerodrome>
        ensures { result ≡ aerodrome_of (contents self.now) i }
    {
        self.aerodromes().get(i).map(aerodrome_in)
    }

    // The place of the aerodrome of a code.
    pub fn find_aerodrome(&self, code: AerodromeCode) -> Option<usize>
        ensures { result ≡ aerodrome_place (contents self.now) code }
    {
        let [a, b, c, d] = code.bytes;
        search(self.aerodromes(), &[a, b, c, d]).ok()
    }

    // Whether a State takes part in offsetting; States past the marks take no part.
    pub fn takes_part(&self, state: u16) -> bool
        ensures { result ≡ takes_part (contents self.now) state }
    {
        marks::takes_part(self.parts.marks, state)
    }
}
