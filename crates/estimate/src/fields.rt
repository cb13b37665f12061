// The fields of a line of questions, between commas.
use arrayvec::ArrayVec;
use lines::forms::{Spelled, read};

// The most fields of a question.
const MOST_FIELDS: usize = 5;

pub(crate) type Fields<'a> = ArrayVec<&'a [u8], MOST_FIELDS>;

// None where there are more than a question has.
pub(crate) fn fields_of(line: &[u8]) -> Option<Fields<'_>> {
    let mut fields = Fields::new();
    for field in line.split(|b| *b == b',') {
        fields.try_push(field).ok()?;
    }
    Some(fields)
}

// What a field spells. Where it spells nothing the default, so that the list that is asked names what is wrong with it,
// in the order of its checks.
pub(crate) fn value<T: Spelled + Default + Drop>(field: &[u8]) -> T {
    read(field).unwrap_or_default()
}

// A State's number, or 0, which is no State.
pub(crate) fn state(field: &[u8]) -> u16 {
    u16::try_from(value::<u32>(field)).unwrap_or_default()
}
