// Answers questions about fuel estimates and aerodromes: one printed line for each line of questions.csv.
#![tactic(auto)]

mod desk;
mod fields;

use crate::desk::Desk;
use book::checked::Book;
use files::check_files;
use std::{fs, io};

// Lines end in byte 10; the last one may lack it.
fn answer_all(rt: &HostRuntime, book: Book<'_>, questions: &[u8]) -> io::Result<()> {
    let mut desk = Desk::new(book);
    for line in questions.split_inclusive(|b| *b == b'\n') {
        let line = line.strip_suffix(b"\n").unwrap_or(line);
        match desk.reply(line) {
            Some(Ok(reply)) => println!(rt; "{reply}")?,
            Some(Err(refusal)) => println!(rt; "R {refusal}")?,
            None => println!(rt; "?")?,
        }
    }
    Ok(())
}

fn main(rt: HostRuntime) -> io::Result<()> {
    let bytes = fs::read(&rt, "book.bin")?;
    let questions = fs::read(&rt, "questions.csv")?;
    match check_files(&bytes, &questions) {
        Ok(_) => answer_all(&rt, Book::of(&bytes), &questions),
        Err(refusal) => println!(&rt; "R 0 {refusal}"),
    }
}
