// What a flight line asks for.
ghost use Rattle.std.specs.Prelude.{◌≡◌};
ghost use Rattle.lines.specs.Forms.{verb_word, fields_of};
ghost use Rattle.lines.specs.Spelling.{verb_of};

use units::entries::Entry;

#[derive(Clone, Copy, Debug, PartialEq, Eq)]
pub enum Verb {
    Add,
    Amend,
    Delete,
}

#[derive(Clone, Copy, Debug, PartialEq, Eq)]
pub enum Order {
    Add(Entry),
    Amend(Entry),
    // the reference of the entry to strike
    Delete(u32),
}

impl Verb {
    // The word that a line of this verb begins with.
    pub fn word(self) -> &'static str
        ensures { result.now ≡ verb_word self }
    {
        match self {
            Verb::Add => "ADD",
            Verb::Amend => "AMD",
            Verb::Delete => "DEL",
        }
    }

    // How many fields a line of this verb has.
    pub(crate) fn fields(self) -> usize
        ensures { result ≡ fields_of self }
    {
        match self {
            Verb::Add | Verb::Amend => 10,
            Verb::Delete => 2,
        }
    }
}

impl Order {
    pub fn verb(self) -> Verb
        ensures { result ≡ verb_of self }
    {
        match self {
            Order::Add(_) => Verb::Add,
            Order::Amend(_) => Verb::Amend,
            Order::Delete(_) => Verb::Delete,
        }
    }
}
