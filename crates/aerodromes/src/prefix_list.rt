// A list of prefixes, as a directory.
ghost use Rattle.std.specs.Prelude.{◌≡◌, []};
ghost use Rattle.lists.specs.Listing.{after_adding};
ghost use Rattle.aerodromes.specs.Prefixed.{prefixes_of, prefix_state, prefix_added};
ghost use Rattle.aerodromes.specs.PrefixLaws.{prefix_laws};

use crate::directory::Directory;
use crate::prefix::Prefix;
use lists::short::ShortList;
use units::codes::AerodromeCode;
use units::refusals::Refusal;

// Prefixes, each with a State from 1 to 193.
#[derive(Drop)]
pub struct Prefixes {
    list: ShortList<Prefix, 256>,
}

impl Prefixes {
    // A list of no prefix.
    pub fn new() -> Prefixes
        ensures { prefixes_of result ≡ [] }
    {
        Prefixes {
            list: ShortList::new(Prefix::default()),
        }
    }

    // Adds a prefix. Refused, the list stays as it is.
    pub fn add(&mut self, item: Prefix) -> Result<(), Refusal>
        ensures answer { result ≡ prefix_added (prefixes_of self.old) item }
        ensures after { prefixes_of self.new ≡ after_adding result (prefixes_of self.old) item }
    {
        self.list.add(item)
    }
}

impl Directory for Prefixes {
    ghost meaning = { λ p. prefix_state (prefixes_of p) };

    ghost laws = { prefix_laws };

    fn state_of(&self, code: AerodromeCode) -> Option<u16>
        ensures { result ≡ prefix_state (prefixes_of self.now) code }
    {
        let [first, second, _, _] = code.bytes;
        let prefix = self.list.find([first, second, 0, 0])?;
        Some(prefix.state)
    }
}
