// Reads a data book and flight lines, and names each line that is refused for its form or its ranges.
#![tactic(auto)]

use files::check_files;
use lines::orders::Order;
use lines::reading::read_line;
use std::{fs, io};
use units::refusals::Refusal;

// What the line itself can be refused for: its form, then the ranges of its entry.
fn check_line(line: &[u8]) -> Result<(), Refusal> {
    match read_line(line)? {
        Order::Add(entry) | Order::Amend(entry) => entry.check(),
        Order::Delete(_) => Ok(()),
    }
}

// Lines end in byte 10; the last one may lack it.
fn print_lines(rt: &HostRuntime, flights: &[u8]) -> io::Result<()> {
    for (number, line) in (1u64..).zip(flights.split_inclusive(|b| *b == b'\n')) {
        let line = line.strip_suffix(b"\n").unwrap_or(line);
        if let Err(refusal) = check_line(line) {
            println!(rt; "R {number} {refusal}")?;
        }
    }
    Ok(())
}

fn main(rt: HostRuntime) -> io::Result<()> {
    let bytes = fs::read(&rt, "book.bin")?;
    let flights = fs::read(&rt, "flights.csv")?;
    match check_files(&bytes, &flights) {
        Ok(_) => print_lines(&rt, &flights),
        Err(refusal) => println!(&rt; "R 0 {refusal}"),
    }
}
