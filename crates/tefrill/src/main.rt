// Reads a data book and estimates the fuel and the CO2 of one flight by it.
#![tactic(auto)]

use book::checked::Book;
use book::checks::check_book;
use book::format::Header;
use estimators::asking::Estimator;
use std::{fs, io};
use units::amounts::co2;
use units::codes::Designator;
use units::measures::{Kind, Measure};
use units::refusals::Refusal;

fn print_header(rt: &HostRuntime, header: Header) -> io::Result<()> {
    println!(rt; "book of {}", header.year)?;
    println!(rt;
        "distance columns {}, time columns {}",
        header.distances, header.times
    )?;
    println!(rt;
        "rows {}, aerodromes {}, States {}",
        header.rows, header.aerodromes, header.states
    )
}

fn print_estimate(rt: &HostRuntime, book: &Book<'_>) -> io::Result<()> {
    let designator = Designator { bytes: *b"GL7T" };
    let measure = Measure {
        kind: Kind::Distance,
        amount: 750,
    };
    println!(rt; "type GL7T, distance {} km", measure.amount)?;
    match book.ask(designator, measure).map_err(Refusal::from) {
        Ok(fuel) => {
            println!(rt; "fuel {fuel} g")?;
            println!(rt; "CO2 {} hundredths of a gram", co2(fuel))
        }
        Err(refusal) => println!(rt; "R 0 {refusal}"),
    }
}

fn main(rt: HostRuntime) -> io::Result<()> {
    let bytes = fs::read(&rt, "book.bin")?;
    match check_book(&bytes) {
        Ok(header) => {
            print_header(&rt, header)?;
            print_estimate(&rt, &Book::of(&bytes))
        }
        Err(refusal) => println!(&rt; "R 0 {refusal}"),
    }
}
