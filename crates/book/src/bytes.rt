// Numbers and items in a run of bytes.
ghost use Rattle.std.specs.Prelude.{◌≡◌, ℕ, ◌+◌, ◌*◌, ◌<◌, ◌≤◌, List, length};
ghost use Rattle.std.specs.List.Sorted.{IsBinarySearchResult, IsSearchInRange};
ghost use Rattle.std.specs.Result.{result_ok};
ghost use Rattle.book.specs.Bytes.{u16_at, u32_at, items, items_of, find, Rising, against};

use std::cmp::Ordering;

// One for each size, since `from_le_bytes` is each type's own.
pub(crate) fn u16_at(bytes: &[u8], at: usize) -> u16
    requires { at + 2 ≤ length bytes.now }
    ensures { result ≡ u16_at bytes.now at }
{
    u16::from_le_bytes([bytes[at], bytes[at + 1]])
}

pub(crate) fn u32_at(bytes: &[u8], at: usize) -> u32
    requires { at + 4 ≤ length bytes.now }
    ensures { result ≡ u32_at bytes.now at }
{
    u32::from_le_bytes([bytes[at], bytes[at + 1], bytes[at + 2], bytes[at + 3]])
}

// The items of N bytes.
pub(crate) fn items<const N: usize>(bytes: &[u8]) -> &[[u8; N]]
    requires { 0 < N }
    ensures is { result.now ≡ items_of N bytes.now }
    ensures many { length result.now ≡ items N bytes.now }
{
    bytes.as_chunks().0
}

// Where the item stands that begins with a key, among items that rise by their first bytes. By hand, since the library's
// search goes on where an item is equal.
pub(crate) fn search<const N: usize, const K: usize>(
    items: &[[u8; N]],
    key: &[u8; K],
) -> Result<usize, usize>
    requires { K ≤ N }
    ensures bound { IsSearchInRange result (length items.now) }
    ensures position { IsBinarySearchResult (against key.now) items.now result }
    ensures place { (bs : List ℕ) → items.now ≡ items_of N bs → Rising N K bs → result_ok result ≡ find N key.now bs }
{
    let (mut low, mut high) = (0, items.len());
    while low < high {
        let middle = low + (high - low) / 2;
        match items[middle][..K].cmp(&key[..]) {
            Ordering::Less => low = middle + 1,
            Ordering::Equal => return Ok(middle),
            Ordering::Greater => high = middle,
        }
    }
    Err(low)
}
