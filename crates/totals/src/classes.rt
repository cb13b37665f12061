// The class of a row of State pairs.
ghost use Rattle.std.specs.Prelude.{◌≡◌};
ghost use Rattle.totals.specs.Classes.{letter, class_of};

use keys::kinds::StatePair;
use units::marks::takes_part;

#[derive(Clone, Copy, Debug, PartialEq, Eq)]
pub enum Class {
    Domestic,
    // international, not subject to offsetting
    International,
    Subject,
}

// Its letter.
impl From<Class> for char {
    ghost from_gives = { λ class r. r ≡ letter class };

    fn from(class: Class) -> char {
        match class {
            Class::Domestic => 'D',
            Class::International => 'N',
            Class::Subject => 'S',
        }
    }
}

// `marks` has one byte for each State from State 1 on, 1 when it takes part.
// `year` and `marks` are two parameters, since a struct of both would be built by the callers only to be taken apart
// here.
pub fn class_of(year: u16, marks: &[u8], pair: StatePair) -> Class
    ensures { result ≡ class_of year marks.now pair }
{
    if pair.departure == pair.arrival {
        return Class::Domestic;
    }
    if year >= 2021 && takes_part(marks, pair.departure) && takes_part(marks, pair.arrival) {
        Class::Subject
    } else {
        Class::International
    }
}
