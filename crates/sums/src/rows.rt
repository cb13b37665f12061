// A row of a sum table.
ghost use Rattle.std.specs.Prelude.{◌≡◌};
ghost use Rattle.sums.specs.Amounts.{none};

use crate::amounts::Amounts;
use keys::key::Key;
use table::record::Record;

#[derive(Clone, Copy, Debug, PartialEq, Eq)]
pub struct Row<K: Key> {
    pub key: K,
    pub amounts: Amounts,
}

impl<K: Key> Record for Row<K> {
    type Key = K;

    ghost keyed = { λ r. r.key };

    ghost unused = { record { key = K.Key.zero; amounts = none } };

    fn key(&self) -> K {
        self.key
    }

    fn blank() -> Row<K> {
        Row {
            key: K::blank(),
            amounts: Amounts::default(),
        }
    }
}
