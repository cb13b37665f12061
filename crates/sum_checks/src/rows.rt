// Amounts added under pairs of States and taken back.
use keys::kinds::StatePair;
use sums::amounts::Amounts;
use sums::changes::{add, take_back};
use sums::rows::Row;
use units::refusals::{Fault, Refusal};

fn row(departure: u16, arrival: u16, flights: u32, fuel: u64) -> Row<StatePair> {
    Row {
        key: StatePair { departure, arrival },
        amounts: Amounts {
            flights,
            fuel,
            co2: fuel.saturating_mul(316),
        },
    }
}

// The count after a change, or the number of the refusal and its place. Alike in each crate of tests.
fn outcome(count: Result<usize, Refusal>) -> Result<usize, (u32, usize)> {
    count.map_err(|refusal| {
        let fault = Fault::from(refusal);
        (fault.number, fault.place)
    })
}

// Departure, arrival, flights, fuel and CO2.
fn fields(row: Row<StatePair>) -> (u16, u16, u32, u64, u64) {
    (
        row.key.departure,
        row.key.arrival,
        row.amounts.flights,
        row.amounts.fuel,
        row.amounts.co2,
    )
}

#[test]
fn a_table_of_one_row(rt: HostRuntime) {
    let mut rows = [row(0, 0, 0, 0); 1];
    assert_eq!(rt; outcome(add(&mut rows, 0, 1, row(1, 2, 10, 100))), Ok(1));
    assert_eq!(rt; outcome(add(&mut rows, 1, 1, row(1, 2, 5, 7))), Ok(1));
    assert_eq!(rt; fields(rows[0]), (1, 2, 15, 107, 33_812));
    assert_eq!(rt;
        outcome(add(&mut rows, 1, 1, row(2, 1, 1, 1))),
        Err((25, 1))
    );
    assert_eq!(rt; outcome(take_back(&mut rows, 1, row(1, 2, 5, 7))), Ok(1));
    assert_eq!(rt; fields(rows[0]), (1, 2, 10, 100, 31_600));
    assert_eq!(rt; outcome(take_back(&mut rows, 1, row(1, 2, 10, 100))), Ok(0));
    assert_eq!(rt; fields(rows[0]), (0, 0, 0, 0, 0));
}

#[test]
fn rows_stand_by_departure_and_then_arrival(rt: HostRuntime) {
    let mut rows = [row(0, 0, 0, 0); 3];
    assert_eq!(rt; outcome(add(&mut rows, 0, 1, row(2, 1, 1, 1))), Ok(1));
    assert_eq!(rt; outcome(add(&mut rows, 1, 1, row(1, 9, 1, 2))), Ok(2));
    assert_eq!(rt; outcome(add(&mut rows, 2, 1, row(2, 0, 1, 3))), Ok(3));
    assert_eq!(rt; fields(rows[0]), (1, 9, 1, 2, 632));
    assert_eq!(rt; fields(rows[1]), (2, 0, 1, 3, 948));
    assert_eq!(rt; fields(rows[2]), (2, 1, 1, 1, 316));
    assert_eq!(rt; outcome(take_back(&mut rows, 3, row(2, 0, 1, 3))), Ok(2));
    assert_eq!(rt; fields(rows[1]), (2, 1, 1, 1, 316));
    assert_eq!(rt; fields(rows[2]), (0, 0, 0, 0, 0));
}

#[test]
fn what_cannot_be_taken_back(rt: HostRuntime) {
    let mut rows = [row(0, 0, 0, 0); 2];
    assert_eq!(rt; outcome(add(&mut rows, 0, 1, row(1, 2, 10, 100))), Ok(1));
    assert_eq!(rt;
        outcome(take_back(&mut rows, 1, row(1, 3, 1, 1))),
        Err((26, 0))
    );
    assert_eq!(rt;
        outcome(take_back(&mut rows, 1, row(1, 2, 11, 1))),
        Err((26, 0))
    );
    assert_eq!(rt;
        outcome(take_back(&mut rows, 1, row(1, 2, 1, 101))),
        Err((26, 0))
    );
    assert_eq!(rt;
        outcome(take_back(&mut rows, 1, row(1, 2, 10, 99))),
        Err((26, 0))
    );
    assert_eq!(rt; fields(rows[0]), (1, 2, 10, 100, 31_600));
}

#[test]
fn sums_have_a_size(rt: HostRuntime) {
    let mut rows = [row(0, 0, 0, 0); 2];
    assert_eq!(rt;
        outcome(add(&mut rows, 0, 1, row(1, 2, 32_768_001, 0))),
        Err((26, 0))
    );
    assert_eq!(rt;
        outcome(add(&mut rows, 0, 1, row(1, 2, 1, 13_107_200_000_000_001))),
        Err((26, 0))
    );
    assert_eq!(rt;
        outcome(add(
            &mut rows,
            0,
            1,
            row(1, 2, 32_768_000, 13_107_200_000_000_000)
        )),
        Ok(1)
    );
    assert_eq!(rt;
        outcome(add(&mut rows, 1, 1, row(1, 2, 1, 0))),
        Err((26, 0))
    );
    assert_eq!(rt;
        outcome(add(&mut rows, 1, 1, row(1, 2, 0, 1))),
        Err((26, 0))
    );
    assert_eq!(rt;
        fields(rows[0]),
        (
            1,
            2,
            32_768_000,
            13_107_200_000_000_000,
            4_141_875_200_000_000_000,
        )
    );
}
