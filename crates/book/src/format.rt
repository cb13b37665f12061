// What the sections of a data book hold, and where they lie in its bytes.
ghost use Rattle.std.specs.Prelude.{◌≡◌, ◌≤◌, length};
ghost use Rattle.book.specs.Items.{tier_numbered};
ghost use Rattle.book.specs.Sections.{book_end, starts as starts_of, cut as sections_of};
ghost use Rattle.book.specs.Parts.{sections};

use units::codes::{AerodromeCode, Designator};
use units::measures::{Kind, Unknown};

// The year of a book and how many items its sections have.
#[derive(Clone, Copy, Debug, PartialEq, Eq)]
pub struct Header {
    pub year: u16,
    pub distances: u16,
    pub times: u16,
    pub rows: u16,
    pub aerodromes: u16,
    pub states: u16,
}

// What a row's fuels rest on: operators' data, an equivalent type, or the Fuel Formula.
#[derive(Clone, Copy, Debug, PartialEq, Eq)]
pub enum Tier {
    Operators,
    Equivalent,
    Formula,
}

#[derive(Clone, Copy, Debug, PartialEq, Eq)]
pub struct Row {
    pub designator: Designator,
    pub kind: Kind,
    pub tier: Tier,
    pub fuels: usize,
}

#[derive(Clone, Copy, Debug, PartialEq, Eq)]
pub struct Aerodrome {
    pub code: AerodromeCode,
    pub state: u16,
}

// The five sections, as parts of the book's bytes, which the definitions speak of. Not as items: the proof of a
// function that reads a field is not told how many bytes an item in it has. `items` cuts them where they are read.
#[derive(Clone, Copy)]
pub struct Parts<'a> {
    pub(crate) distances: &'a [u8],
    pub(crate) times: &'a [u8],
    pub(crate) rows: &'a [u8],
    pub(crate) aerodromes: &'a [u8],
    pub(crate) marks: &'a [u8],
}

// Where each section after the first begins, and where the last one ends.
#[derive(Clone, Copy)]
pub(crate) struct Starts {
    pub(crate) times: usize,
    pub(crate) rows: usize,
    pub(crate) aerodromes: usize,
    pub(crate) marks: usize,
    pub(crate) end: usize,
}

impl TryFrom<u8> for Tier {
    type Error = Unknown<u8>;

    ghost try_from_gives = { λ number tier. tier ≡ tier_numbered number };

    fn try_from(number: u8) -> Result<Tier, Unknown<u8>> {
        match number {
            1 => Ok(Tier::Operators),
            2 => Ok(Tier::Equivalent),
            3 => Ok(Tier::Formula),
            _ => Err(Unknown { given: number }),
        }
    }
}

impl Header {
    pub(crate) fn starts(self) -> Starts
        ensures { result ≡ starts_of self }
    {
        let times = 36 + 2 * self.distances as usize;
        let rows = times + 2 * self.times as usize;
        let aerodromes = rows + 104 * self.rows as usize;
        let marks = aerodromes + 8 * self.aerodromes as usize;
        let end = marks + self.states as usize;
        Starts {
            times,
            rows,
            aerodromes,
            marks,
            end,
        }
    }
}

// The sections of bytes that end where the header says.
pub(crate) fn cut(bytes: &[u8], header: Header) -> Parts<'_>
    requires { length bytes.now ≡ book_end header }
    ensures { sections result ≡ sections_of header bytes.now }
{
    let Starts {
        times,
        rows,
        aerodromes,
        marks,
        end,
    } = header.starts();
    Parts {
        distances: &bytes[36..times],
        times: &bytes[times..rows],
        rows: &bytes[rows..aerodromes],
        aerodromes: &bytes[aerodromes..marks],
        marks: &bytes[marks..end],
    }
}
