// A record with a pair of States for its key.
use keys::key::Key;
use keys::kinds::StatePair;
use table::record::Record;

#[derive(Clone, Copy)]
pub struct Row {
    pub pair: StatePair,
    pub amount: u32,
}

pub(crate) fn pair(departure: u16, arrival: u16) -> StatePair {
    StatePair { departure, arrival }
}

pub(crate) fn made(departure: u16, arrival: u16, amount: u32) -> Row {
    Row {
        pair: pair(departure, arrival),
        amount,
    }
}

impl Record for Row {
    type Key = StatePair;

    ghost keyed = { λ x. x.pair };

    ghost unused = { record { pair = record { departure = 0; arrival = 0 }; amount = 0 } };

    fn key(&self) -> StatePair {
        self.pair
    }

    fn blank() -> Row {
        Row {
            pair: StatePair::blank(),
            amount: 0,
        }
    }
}
