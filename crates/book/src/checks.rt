// The check of a data book: the first check that its bytes fail.
ghost use Rattle.std.specs.Prelude.{◌≡◌, ◌+◌, ◌*◌, ◌<◌, ◌≤◌, length, is_some};
ghost use Rattle.units.specs.Places.{first};
ghost use Rattle.book.specs.Bytes.{items};
ghost use Rattle.book.specs.Check.{columns_checked, row_bad, rows_checked, aerodrome_bad, aerodromes_checked, marks_checked, items_checked, checked};
ghost use Rattle.book.specs.Items.{column, column_wrong, columns_for, fuel as fuel_of, fuel_wrong, row_wrong, aerodrome_wrong, count_wrong};
ghost use Rattle.book.specs.Parts.{sections};
ghost use Rattle.book.specs.Sections.{header as header_of, header_good, columns_good, offsets_good};

use crate::bytes::{items as items_in, u16_at, u32_at};
use crate::format::{Header, Parts, Tier, cut};
use units::codes::{is_aerodrome_code, is_designator, is_state};
use units::measures::Kind;
use units::refusals::{Refusal, hold};

// How many columns each kind has.
#[derive(Clone, Copy)]
struct Columns {
    distances: usize,
    times: usize,
}

impl Columns {
    fn of(self, kind: Kind) -> usize
        ensures { result ≡ columns_for self.distances self.times (Some kind) }
    {
        match kind {
            Kind::Distance => self.distances,
            Kind::Time => self.times,
        }
    }
}

// The column at `i`; 0 past the last.
#[tactic(auto, using(crate::proofs::Fronts::number_at))]
pub(crate) fn column_at(columns: &[u8], i: usize) -> u16
    ensures { result ≡ column columns.now i }
{
    items_in(columns)
        .get(i)
        .map_or(0, |column| u16::from_le_bytes(*column))
}

fn column_is_wrong(columns: &[u8], limit: u32, i: usize) -> bool
    ensures { result ≡ column_wrong limit columns.now i }
{
    let at = column_at(columns, i);
    at as u32 > limit
        || if i == 0 {
            at != 0
        } else {
            at <= column_at(columns, i - 1)
        }
}

fn check_columns(columns: &[u8], limit: u32) -> Result<(), Refusal>
    ensures { result ≡ columns_checked limit columns.now }
{
    (0..columns.len() / 2)
        .find(|&i| column_is_wrong(columns, limit, i))
        .map_or(Ok(()), |i| Err(Refusal::BookColumn(i)))
}

// Fuel `j` of a row, in kilograms.
pub(crate) fn fuel_at(row: &[u8; 104], j: usize) -> u32
    requires { j < 24 }
    ensures { result ≡ fuel_of row.now j }
{
    u32_at(row, 8 + 4 * j)
}

fn fuel_is_wrong(row: &[u8; 104], j: usize) -> bool
    requires { j < 24 }
    ensures { result ≡ fuel_wrong row.now j }
{
    let fuel = fuel_at(row, j);
    if j < row[6] as usize {
        fuel > 400_000 || j > 0 && fuel < fuel_at(row, j - 1)
    } else {
        fuel != 0
    }
}

fn fuels_are_wrong(row: &[u8; 104]) -> bool
    ensures { result ≡ is_some (first (fuel_wrong row.now) 24) }
{
    (0..24).any(|j| fuel_is_wrong(row, j))
}

// Whether a row has too few fuels, or more than the columns of its kind.
fn count_is_wrong(row: &[u8; 104], columns: Columns) -> bool
    ensures { result ≡ count_wrong columns.distances columns.times row.now }
{
    let most = Kind::try_from(row[4] as u32).map_or(0, |kind| columns.of(kind));
    row[6] < 2 || most < row[6] as usize
}

fn row_is_wrong(row: &[u8; 104], columns: Columns) -> bool
    ensures { result ≡ row_wrong columns.distances columns.times row.now }
{
    !is_designator(&row[..4])
        || Kind::try_from(row[4] as u32).is_err()
        || Tier::try_from(row[5]).is_err()
        || count_is_wrong(row, columns)
        || row[7] != 0
        || fuels_are_wrong(row)
}

fn row_is_bad(rows: &[u8], columns: Columns, i: usize) -> bool
    requires { i < items 104 rows.now }
    ensures { result ≡ row_bad columns.distances columns.times rows.now i }
{
    let rows = items_in(rows);
    row_is_wrong(&rows[i], columns) || i > 0 && rows[i][..5] <= rows[i - 1][..5]
}

fn check_rows(rows: &[u8], columns: Columns) -> Result<(), Refusal>
    ensures { result ≡ rows_checked columns.distances columns.times rows.now }
{
    (0..rows.len() / 104)
        .find(|&i| row_is_bad(rows, columns, i))
        .map_or(Ok(()), |i| Err(Refusal::BookRow(i)))
}

fn aerodrome_is_wrong(aerodrome: &[u8; 8]) -> bool
    ensures { result ≡ aerodrome_wrong aerodrome.now }
{
    !is_aerodrome_code(&aerodrome[..4])
        || !is_state(u16_at(aerodrome, 4))
        || u16_at(aerodrome, 6) != 0
}

fn aerodrome_is_bad(aerodromes: &[u8], i: usize) -> bool
    requires { i < items 8 aerodromes.now }
    ensures { result ≡ aerodrome_bad aerodromes.now i }
{
    let aerodromes = items_in(aerodromes);
    aerodrome_is_wrong(&aerodromes[i]) || i > 0 && aerodromes[i][..4] <= aerodromes[i - 1][..4]
}

fn check_aerodromes(aerodromes: &[u8]) -> Result<(), Refusal>
    ensures { result ≡ aerodromes_checked aerodromes.now }
{
    (0..aerodromes.len() / 8)
        .find(|&i| aerodrome_is_bad(aerodromes, i))
        .map_or(Ok(()), |i| Err(Refusal::BookAerodrome(i)))
}

fn check_marks(marks: &[u8]) -> Result<(), Refusal>
    ensures { result ≡ marks_checked marks.now }
{
    marks
        .iter()
        .position(|mark| *mark > 1)
        .map_or(Ok(()), |i| Err(Refusal::StateMark(i)))
}

// The items of every section, in the order of the sections.
#[tactic(auto, unfolding(crate::specs::Check::items_checked))]
fn check_items(parts: Parts<'_>) -> Result<(), Refusal>
    ensures { result ≡ items_checked (sections parts.entry) }
{
    check_columns(parts.distances, Kind::Distance.limit())?;
    check_columns(parts.times, Kind::Time.limit())?;
    let columns = Columns {
        distances: parts.distances.len() / 2,
        times: parts.times.len() / 2,
    };
    check_rows(parts.rows, columns)?;
    check_aerodromes(parts.aerodromes)?;
    check_marks(parts.marks)
}

fn header(bytes: &[u8]) -> Header
    requires { 36 ≤ length bytes.now }
    ensures { result ≡ header_of bytes.now }
{
    Header {
        year: u16_at(bytes, 0),
        distances: u16_at(bytes, 2),
        times: u16_at(bytes, 4),
        rows: u16_at(bytes, 6),
        aerodromes: u16_at(bytes, 8),
        states: u16_at(bytes, 10),
    }
}

fn is_good_count(columns: u16) -> bool
    ensures { result ≡ columns_good columns }
{
    matches!(columns, 0 | 2..=24)
}

fn is_good_header(header: Header) -> bool
    ensures { result ≡ header_good header }
{
    matches!(header.year, 2019..=2035)
        && is_good_count(header.distances)
        && is_good_count(header.times)
        && header.rows <= 600
        && header.aerodromes <= 20_000
        && matches!(header.states, 1..=193)
}

// Each offset is where its section begins; the last one, and the bytes' length, where the book ends.
fn offsets_are_good(bytes: &[u8], header: Header) -> bool
    requires { 36 ≤ length bytes.now }
    ensures { result ≡ offsets_good header bytes.now }
{
    let starts = header.starts();
    u32_at(bytes, 12) == 36
        && u32_at(bytes, 16) as usize == starts.times
        && u32_at(bytes, 20) as usize == starts.rows
        && u32_at(bytes, 24) as usize == starts.aerodromes
        && u32_at(bytes, 28) as usize == starts.marks
        && u32_at(bytes, 32) as usize == starts.end
        && bytes.len() == starts.end
}

// The first check that the bytes fail, or the header of the book that they spell.
pub fn check_book(bytes: &[u8]) -> Result<Header, Refusal>
    ensures { result ≡ checked bytes.now }
{
    hold(matches!(bytes.len(), 36..=1_048_576), Refusal::BookLength)?;
    let header = header(bytes);
    hold(is_good_header(header), Refusal::BookHeader)?;
    hold(offsets_are_good(bytes, header), Refusal::BookOffsets)?;
    check_items(cut(bytes, header))?;
    Ok(header)
}
