// Codes of aeroplane types and aerodromes, and the numbers of States.
ghost use Rattle.std.specs.Prelude.{◌≡◌};
ghost use Rattle.units.specs.Alphabet.{character, ending, designator, aerodrome_code, state_number};

// The four bytes of a type designator, well formed or not.
#[derive(Clone, Copy, Debug, Default, PartialEq, Eq, PartialOrd, Ord)]
pub struct Designator {
    pub bytes: [u8; 4],
}

// The four bytes of an aerodrome code, well formed or not.
#[derive(Clone, Copy, Debug, Default, PartialEq, Eq, PartialOrd, Ord)]
pub struct AerodromeCode {
    pub bytes: [u8; 4],
}

// 0 to 9 or A to Z.
pub fn is_character(b: u8) -> bool
    ensures { result ≡ character b }
{
    matches!(b, b'0'..=b'9' | b'A'..=b'Z')
}

fn is_ending(c: u8, d: u8) -> bool
    ensures { result ≡ ending c d }
{
    if is_character(c) {
        is_character(d) || d == b' '
    } else {
        c == b' ' && d == b' '
    }
}

// Two to four characters, filled up with spaces to four bytes.
pub fn is_designator(bytes: &[u8]) -> bool
    ensures { result ≡ designator bytes.now }
{
    bytes.len() == 4
        && is_character(bytes[0])
        && is_character(bytes[1])
        && is_ending(bytes[2], bytes[3])
}

// Four characters.
pub fn is_aerodrome_code(bytes: &[u8]) -> bool
    ensures { result ≡ aerodrome_code bytes.now }
{
    bytes.len() == 4
        && is_character(bytes[0])
        && is_character(bytes[1])
        && is_character(bytes[2])
        && is_character(bytes[3])
}

pub fn is_state(number: u16) -> bool
    ensures { result ≡ state_number number }
{
    matches!(number, 1..=193)
}
