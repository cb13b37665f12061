// A list of at most `N` items, in the order in which they were added.
ghost use Rattle.std.specs.Prelude.{◌≡◌, ⊤, true, min, take};
ghost use Rattle.std.specs.List.{list_all};

use crate::item::Item;
use std::alloc::AllocError;
use units::refusals::Refusal;

// The first `count` places hold the items, and each of them fits: one that does not is refused. An array with its
// count, since the kit's vector of fixed capacity asks that an item has a default, and is not `Copy`: callers would be
// asked more.
#[derive(Copy)]
pub struct ShortList<T: Item, const N: usize> {
    count: usize,
    items: [T; N],
    pub ghost fit: { list_all T.fitting (take (min count N) items) ≡ true },
}

// By hand, since it is not derived for a struct with a type parameter and a ghost field.
impl<T: Item, const N: usize> Clone for ShortList<T, N> {
    ghost is_clone = { λ list copy. copy ≡ list };

    ghost is_infallible = { λ _. ⊤ };

    fn clone(&self) -> Result<ShortList<T, N>, AllocError> {
        Ok(*self)
    }
}

impl<T: Item, const N: usize> ShortList<T, N> {
    ghost use Rattle.std.specs.Prelude.{◌<◌, false, [], ◌∷◌, ◌++◌, length, is_some, nat_le, IfSome};
    ghost use Rattle.lists.specs.Entries.{entries};
    ghost use Rattle.lists.specs.Listing.{listed, added, after_adding};

    // An empty list; `blank` fills the places that are not used.
    pub fn new(blank: T) -> ShortList<T, N>
        ensures { entries result ≡ [] }
    {
        ShortList {
            count: 0,
            items: [blank; N],
        }
    }

    // The items that were added. The length of the array is known once the whole is sliced.
    fn held(&self) -> &[T]
        ensures { result.now ≡ entries self.now }
    {
        let items = &self.items[..];
        &items[..self.count.min(N)]
    }

    // The item of that name. It fits, as every item does.
    pub fn find(&self, name: [u8; 4]) -> Option<T>
        ensures is { result ≡ listed T.naming name (entries self.now) }
        ensures fit { IfSome result (λ x. T.fitting x ≡ true) }
    {
        self.held().iter().find(|item| item.name() == name).copied()
    }

    // Whether every place is used.
    fn is_full(&self) -> bool
        ensures is { result ≡ nat_le N (length (entries self.now)) }
        ensures room { result ≡ false → self.now.count < N }
    {
        let items = &self.items[..];
        self.count >= items.len()
    }

    fn push(&mut self, item: T)
        requires room { self.old.count < N }
        requires fits { T.fitting item ≡ true }
        ensures { entries self.new ≡ entries self.old ++ item ∷ [] }
    {
        let at = self.count;
        self.items[at] = item;
        self.count = at + 1;
    }

    // Adds an item at the end. Refused, the list stays as it is.
    pub fn add(&mut self, item: T) -> Result<(), Refusal>
        ensures answer { result ≡ added T.OWNER (nat_le N (length (entries self.old))) (T.formed item) (is_some (listed T.naming (T.naming item) (entries self.old))) (T.fitting item) }
        ensures after { entries self.new ≡ after_adding result (entries self.old) item }
    {
        if self.is_full() {
            return Err(Refusal::ListFull(T::OWNER));
        }
        if !item.is_formed() {
            return Err(Refusal::ListCode(T::OWNER));
        }
        if self.find(item.name()).is_some() {
            return Err(Refusal::ListRepeated(T::OWNER));
        }
        if !item.is_fitting() {
            return Err(Refusal::ListValue(T::OWNER));
        }
        self.push(item);
        Ok(())
    }
}
