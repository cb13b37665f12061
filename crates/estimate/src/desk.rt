// The estimator and the directories that are asked, and the answer to one line.
use crate::fields::{fields_of, state, value};
use aerodromes::custom::CustomAerodrome;
use aerodromes::custom_list::CustomAerodromes;
use aerodromes::directory::Directory;
use aerodromes::prefix::Prefix;
use aerodromes::prefix_list::Prefixes;
use book::checked::Book;
use layers::customs::CustomTypes;
use layers::equivalents::Equivalents;
use layers::items::{CustomType, Equivalent};
use lines::forms::read;
use questions::{aerodrome_state, flight_fuel};
use std::fmt;
use units::amounts::co2;
use units::refusals::Refusal;

#[derive(Drop)]
pub(crate) struct Desk<'a> {
    estimator: CustomTypes<Equivalents<Book<'a>>>,
    aerodromes: CustomAerodromes<Book<'a>>,
    prefixes: Prefixes,
}

#[derive(Clone, Copy)]
pub(crate) enum Reply {
    Done,
    // grams
    Fuel(u64),
    State(u16),
}

impl fmt::Display for Reply {
    fn fmt<W: fmt::Write>(&self, f: &mut fmt::Formatter<W>) -> fmt::Result {
        match self {
            Reply::Done => f.write_str("ok"),
            Reply::Fuel(grams) => write!(f, "{} {}", grams, co2(*grams)),
            Reply::State(number) => write!(f, "{number}"),
        }
    }
}

fn found<D: Directory>(directory: &D, name: &[u8]) -> Result<Reply, Refusal> {
    aerodrome_state(directory, value(name)).map(Reply::State)
}

impl<'a> Desk<'a> {
    // Empty lists over the book's rows and aerodromes.
    pub(crate) fn new(book: Book<'a>) -> Desk<'a> {
        Desk {
            estimator: CustomTypes::over(Equivalents::over(book)),
            aerodromes: CustomAerodromes::new(book),
            prefixes: Prefixes::new(),
        }
    }

    fn ask(&self, name: &[u8], kind: &[u8], amount: &[u8]) -> Result<Reply, Refusal> {
        flight_fuel(&self.estimator, value(name), read(kind), read(amount)).map(Reply::Fuel)
    }

    // The answer to one line; none where it is no question.
    pub(crate) fn reply(&mut self, line: &[u8]) -> Option<Result<Reply, Refusal>> {
        let fields = fields_of(line)?;
        let added = match fields.as_slice() {
            [b"ASK", name, kind, amount] => return Some(self.ask(name, kind, amount)),
            [b"FND", name] => return Some(found(&self.aerodromes, name)),
            [b"PFX", name] => return Some(found(&self.prefixes, name)),
            [b"EQV", name, named, p, q] => self.estimator.add_equivalent(Equivalent {
                designator: value(name),
                named: value(named),
                p: value(p),
                q: value(q),
            }),
            [b"CUS", name, category, mass] => self.estimator.add_type(CustomType {
                designator: value(name),
                category: value(category),
                mass: value(mass),
            }),
            [b"PRE", prefix, of] => self.add_prefix(prefix, of),
            [b"AER", name, of] => self.aerodromes.add(CustomAerodrome {
                code: value(name),
                state: state(of),
            }),
            _ => return None,
        };
        Some(added.map(|()| Reply::Done))
    }

    fn add_prefix(&mut self, prefix: &[u8], of: &[u8]) -> Result<(), Refusal> {
        let [first, second] = <[u8; 2]>::try_from(prefix).unwrap_or_default();
        self.prefixes.add(Prefix {
            first,
            second,
            state: state(of),
        })
    }
}
