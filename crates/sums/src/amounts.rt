// Flights, fuel and CO2, as rows add them up.
ghost use Rattle.std.specs.Prelude.{◌≡◌};
ghost use Rattle.sums.specs.Amounts.{within, plus, minus};

// The most that a sum can come to: 32,768 entries of 1,000 flights of 400,000,000 g, and 316 times that.
const MOST: Amounts = Amounts {
    flights: 32_768_000,
    fuel: 13_107_200_000_000_000,
    co2: 4_141_875_200_000_000_000,
};

#[derive(Clone, Copy, Debug, Default, PartialEq, Eq)]
pub struct Amounts {
    pub flights: u32,
    // grams
    pub fuel: u64,
    // hundredths of a gram
    pub co2: u64,
}

impl Amounts {
    fn is_within(self) -> bool
        ensures { result ≡ within self }
    {
        self.flights <= MOST.flights && self.fuel <= MOST.fuel && self.co2 <= MOST.co2
    }

    // Both together, unless one of the three passes its size.
    pub(crate) fn plus(self, more: Amounts) -> Option<Amounts>
        ensures { result ≡ plus self more }
    {
        let both = Amounts {
            flights: self.flights.checked_add(more.flights)?,
            fuel: self.fuel.checked_add(more.fuel)?,
            co2: self.co2.checked_add(more.co2)?,
        };
        both.is_within().then_some(both)
    }

    // What is left, unless there is too little of one of the three or fuel would be left without flights.
    pub(crate) fn minus(self, less: Amounts) -> Option<Amounts>
        ensures { result ≡ minus self less }
    {
        let left = Amounts {
            flights: self.flights.checked_sub(less.flights)?,
            fuel: self.fuel.checked_sub(less.fuel)?,
            co2: self.co2.checked_sub(less.co2)?,
        };
        let stray = left.flights == 0 && left.fuel > 0;
        (!stray).then_some(left)
    }
}
