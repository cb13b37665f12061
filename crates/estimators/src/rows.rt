// The rows of a checked book as an estimator.
ghost use Rattle.std.specs.Prelude.{◌≡◌, ◌+◌, ◌^◌, ◌<◌, ◌≤◌, Some, IfSome, true};
ghost use Rattle.book.specs.Contents.{column_of, fuel_of, fuel_count_of};
ghost use Rattle.book.specs.Reading.{contents};
ghost use Rattle.estimators.specs.Answers.{within_limit};
ghost use Rattle.estimators.specs.Rows.{on_line, segment, row_answer, rows_meaning};
ghost use Rattle.estimators.specs.Points.{point_of};
ghost use Rattle.estimators.specs.BookLaws.{book_laws};
ghost use Rattle.estimators.specs.Climbs.{Climbs};

use crate::answers::{Answer, NoEstimate};
use crate::asking::Estimator;
use book::checked::Book;
use units::amounts::nearest;
use units::codes::Designator;
use units::measures::{Kind, Measure};

// A column of a row and the fuel there, in kilograms.
#[derive(Clone, Copy)]
struct Point {
    column: u16,
    fuel: u32,
}

// The grams at `amount` on the straight line between two points.
fn grams_between(from: Point, to: Point, amount: u32) -> u64
    requires { amount ≤ to.column }
    ensures { result ≡ on_line from.column to.column from.fuel to.fuel amount }
{
    let width = to.column.saturating_sub(from.column) as u64;
    let along = amount.saturating_sub(from.column as u32) as u64;
    let rise = to.fuel.saturating_sub(from.fuel) as u64;
    nearest(1000 * (from.fuel as u64 * width + rise * along), width)
}

fn point_at(book: &Book<'_>, row: usize, kind: Kind, j: usize) -> Point
    ensures { result ≡ point_of (contents book.now) row kind j }
{
    Point {
        column: book.column(kind, j),
        fuel: book.fuel(row, j),
    }
}

// The first column of a row of which the amount does not pass the next.
fn segment_of(book: &Book<'_>, row: usize, measure: Measure) -> Option<usize>
    ensures is { result ≡ segment (column_of (contents book.now) measure.kind) (fuel_of (contents book.now) row) (fuel_count_of (contents book.now) row) measure.amount }
    ensures next { IfSome result (λ j. (j + 1 < 2 ^ 64) × (measure.amount ≤ column_of (contents book.now) measure.kind (j + 1))) }
{
    let segments = book.fuel_count(row).saturating_sub(1);
    (0..segments).find(|j| measure.amount <= book.column(measure.kind, *j + 1) as u32)
}

// The answer of the row at a place: beyond past its last fuel.
fn on_row(book: &Book<'_>, row: usize, measure: Measure) -> Answer
    ensures { result ≡ row_answer (contents book.now) measure (Some row) }
{
    let j = segment_of(book, row, measure).ok_or(NoEstimate::Beyond)?;
    let from = point_at(book, row, measure.kind, j);
    let to = point_at(book, row, measure.kind, j + 1);
    Ok(grams_between(from, to, measure.amount))
}

impl Estimator for Book<'_> {
    ghost meaning = { λ b. rows_meaning (contents b) };

    ghost laws = { book_laws };

    #[tactic(auto, using(crate::proofs::Climbing::book_climbs))]
    fn ask(&self, designator: Designator, measure: Measure) -> Answer
        ensures meant { result ≡ rows_meaning (contents self.now) designator measure }
        ensures limited { within_limit result ≡ true }
        ensures climbs { Climbs (contents self.now) designator measure.kind }
    {
        let row = self
            .find_row(designator, measure.kind)
            .ok_or(NoEstimate::NotKnown)?;
        on_row(self, row, measure)
    }
}
