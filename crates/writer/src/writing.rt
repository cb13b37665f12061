// An order is written as its line, or refused before a byte is written.
ghost use Rattle.std.specs.Prelude.{◌≡◌, length};
ghost use Rattle.lines.specs.Laws.{Alone};
ghost use Rattle.lines.specs.Spelling.{line_of, order_checked};
ghost use Rattle.writer.specs.Laws.{ReadBack, OneLine};
ghost use Rattle.writer.specs.Writing.{placed, overwritten, written, buffer_after};

use crate::drafts::Draft;
use lines::orders::Order;
use units::entries::check_reference;
use units::refusals::Refusal;

fn drafted(order: Order) -> Draft
    ensures { result ≡ line_of order }
{
    let mut draft = Draft::new();
    draft.put(order.verb().word().as_bytes());
    match order {
        Order::Add(entry) | Order::Amend(entry) => draft.entry(entry),
        Order::Delete(reference) => draft.number(reference),
    }
    draft
}

fn check(order: Order) -> Result<(), Refusal>
    ensures answer { result ≡ order_checked order }
    ensures back { ReadBack order }
    ensures line { OneLine order }
    ensures alone { Alone order }
{
    match order {
        Order::Add(entry) | Order::Amend(entry) => entry.check(),
        Order::Delete(reference) => check_reference(reference),
    }
}

// The draft stands at the front of the buffer, if it has room for it.
fn place(draft: &Draft, buffer: &mut [u8]) -> Result<usize, Refusal>
    ensures answer { result ≡ placed draft.now (length buffer.old) }
    ensures bytes { buffer.new ≡ overwritten draft.now buffer.old }
{
    let line = draft.as_slice();
    let end = line.len();
    if end > buffer.len() {
        return Err(Refusal::BufferShort);
    }
    buffer[..end].copy_from_slice(line);
    Ok(end)
}

// The length of the order's line, which then stands at the front of the buffer.
pub fn write_line(order: Order, buffer: &mut [u8]) -> Result<usize, Refusal>
    ensures answer { result ≡ written order (length buffer.old) }
    ensures bytes { buffer.new ≡ buffer_after order buffer.old }
    ensures back { ReadBack order }
    ensures line { OneLine order }
    ensures alone { Alone order }
{
    check(order)?;
    let draft = drafted(order);
    place(&draft, buffer)
}
