// A field as a token: its number and the part of the line that it is.
ghost use Rattle.std.specs.Prelude.{◌≡◌};
ghost use Rattle.lines.specs.Tokens.{Sound, Stands, token_number, token_bytes};

use crate::forms::Spelled;
use std::str::from_utf8;

// Three cases, each with its number: a form that docs/DECISIONS.md wants.
#[derive(Clone, Copy)]
pub(crate) enum Token<'a> {
    Empty(usize),
    Text(usize, &'a str),
    Other(usize, &'a [u8]),
}

impl<'a> Token<'a> {
    pub(crate) fn of(number: usize, part: &'a [u8]) -> Token<'a>
        ensures { Stands result number part.now }
    {
        if part.is_empty() {
            return Token::Empty(number);
        }
        match from_utf8(part) {
            Ok(text) => Token::Text(number, text),
            Err(_) => Token::Other(number, part),
        }
    }

    pub(crate) fn number(self) -> usize
        ensures { result ≡ token_number self.entry }
    {
        match self {
            Token::Empty(number) | Token::Text(number, _) | Token::Other(number, _) => number,
        }
    }

    // The value that it spells.
    pub(crate) fn value<T: Spelled>(self) -> Option<T>
        requires { Sound self }
        ensures { result ≡ T.spelt (token_bytes self.entry) }
    {
        match self {
            Token::Empty(_) => T::read(""),
            Token::Text(_, text) => T::read(text),
            Token::Other(_, _) => None,
        }
    }
}
