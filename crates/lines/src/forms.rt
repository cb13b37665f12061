// What a field spells, by its form alone.
ghost use Rattle.std.specs.Prelude.{◌≡◌, ◌≤◌, ℕ, List, length, Option};
ghost use Rattle.lines.specs.Forms.{verb, number, plain, characters, filled as filled_up, type_of, code_of, kind_of, reported_of, marked, exempt_of};
ghost use Rattle.lines.specs.TextAlone.{TextAlone, verb_text, number_text, type_text, code_text, kind_text, reported_text, exempt_text};

use crate::orders::Verb;
use std::str::from_utf8;
use units::codes::{AerodromeCode, Designator, is_aerodrome_code, is_character};
use units::measures::Kind;

// A type whose values the fields of a line spell.
pub trait Spelled: Sized {
    ghost spelt: { List ℕ → Option Self };

    fn read(text: &str) -> Option<Self>
        ensures { result ≡ spelt text.now };

    // What is no text spells nothing.
    ghost text_alone: { TextAlone spelt };
}

// What a field spells that may be any bytes.
pub fn read<T: Spelled>(field: &[u8]) -> Option<T>
    ensures { result ≡ T.spelt field.now }
{
    T::read(from_utf8(field).ok()?)
}

impl Spelled for Verb {
    ghost spelt = { verb };

    ghost text_alone = { verb_text };

    fn read(text: &str) -> Option<Verb> {
        match text {
            "ADD" => Some(Verb::Add),
            "AMD" => Some(Verb::Amend),
            "DEL" => Some(Verb::Delete),
            _ => None,
        }
    }
}

// Whether a text may be a number: 1 to 9 bytes, no sign in front and no leading zero.
fn is_plain(bytes: &[u8]) -> bool
    ensures { result ≡ plain bytes.now }
{
    match bytes {
        [] | [b'+', ..] | [b'0', _, ..] => false,
        _ => bytes.len() <= 9,
    }
}

impl Spelled for u32 {
    ghost spelt = { number };

    ghost text_alone = { number_text };

    fn read(text: &str) -> Option<u32> {
        if is_plain(text.as_bytes()) {
            text.parse::<u32>().ok()
        } else {
            None
        }
    }
}

// Nothing where the field is empty.
impl Spelled for Option<u32> {
    ghost spelt = { reported_of };

    ghost text_alone = { reported_text };

    fn read(text: &str) -> Option<Option<u32>> {
        if text.is_empty() {
            Some(None)
        } else {
            u32::read(text).map(Some)
        }
    }
}

fn are_characters(bytes: &[u8]) -> bool
    ensures { result ≡ characters bytes.now }
{
    bytes.iter().all(|b| is_character(*b))
}

// At the front of four spaces: the library has nothing that fills up.
fn filled(bytes: &[u8]) -> [u8; 4]
    requires { length bytes.now ≤ 4 }
    ensures { result ≡ filled_up bytes.now }
{
    let mut four = [b' '; 4];
    four[..bytes.len()].copy_from_slice(bytes);
    four
}

impl Spelled for Designator {
    ghost spelt = { type_of };

    ghost text_alone = { type_text };

    fn read(text: &str) -> Option<Designator> {
        let bytes = text.as_bytes();
        if matches!(bytes.len(), 2..=4) && are_characters(bytes) {
            Some(Designator {
                bytes: filled(bytes),
            })
        } else {
            None
        }
    }
}

impl Spelled for AerodromeCode {
    ghost spelt = { code_of };

    ghost text_alone = { code_text };

    fn read(text: &str) -> Option<AerodromeCode> {
        let bytes = <[u8; 4]>::try_from(text.as_bytes()).ok()?;
        is_aerodrome_code(&bytes).then_some(AerodromeCode { bytes })
    }
}

impl Spelled for Kind {
    ghost spelt = { kind_of };

    ghost text_alone = { kind_text };

    fn read(text: &str) -> Option<Kind> {
        match text.as_bytes() {
            [letter] => Kind::try_from(*letter as char).ok(),
            _ => None,
        }
    }
}

fn exempt_mark(letter: char) -> Option<bool>
    ensures { result ≡ marked letter }
{
    match letter {
        'X' => Some(true),
        _ => None,
    }
}

// Whether the flights are exempt.
impl Spelled for bool {
    ghost spelt = { exempt_of };

    ghost text_alone = { exempt_text };

    fn read(text: &str) -> Option<bool> {
        match text.as_bytes() {
            [] => Some(false),
            [letter] => exempt_mark(*letter as char),
            _ => None,
        }
    }
}
