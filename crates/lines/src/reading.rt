// A line is read from its fields, or refused by the first check that it fails.
ghost use Rattle.std.specs.Prelude.{◌≡◌};
ghost use Rattle.lines.specs.Kept.{parts_of};
ghost use Rattle.lines.specs.Laws.{SpeltAgain};
ghost use Rattle.lines.specs.Reading.{entry_in, order_in, read};

use crate::fields::Fields;
use crate::orders::{Order, Verb};
use units::entries::Entry;
use units::measures::Measure;
use units::refusals::Refusal;

// The most bytes of a line.
pub const LINE_LIMIT: usize = 80;

fn read_entry(fields: &Fields<'_>) -> Result<Entry, Refusal>
    ensures { result ≡ entry_in (parts_of fields.now) }
{
    let reference = fields.at(2)?;
    let designator = fields.at(3)?;
    let departure = fields.at(4)?;
    let arrival = fields.at(5)?;
    let kind = fields.at(6)?;
    let amount = fields.at(7)?;
    let flights = fields.at(8)?;
    let reported = fields.at(9)?;
    let exempt = fields.at(10)?;
    Ok(Entry {
        reference,
        designator,
        departure,
        arrival,
        measure: Measure { kind, amount },
        flights,
        reported,
        exempt,
    })
}

fn read_order(verb: Verb, fields: &Fields<'_>) -> Result<Order, Refusal>
    ensures { result ≡ order_in verb (parts_of fields.now) }
{
    match verb {
        Verb::Add => Ok(Order::Add(read_entry(fields)?)),
        Verb::Amend => Ok(Order::Amend(read_entry(fields)?)),
        Verb::Delete => Ok(Order::Delete(fields.at(2)?)),
    }
}

// The order that a line spells, or the first check that it fails.
pub fn read_line(line: &[u8]) -> Result<Order, Refusal>
    ensures answer { result ≡ read line.now }
    ensures again { SpeltAgain result line.now }
{
    if line.len() > LINE_LIMIT {
        return Err(Refusal::LineLength);
    }
    let fields = Fields::of(line);
    let verb = fields.verb()?;
    if fields.count == verb.fields() {
        read_order(verb, &fields)
    } else {
        Err(Refusal::LineFields)
    }
}
