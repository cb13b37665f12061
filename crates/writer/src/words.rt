// The fields of an entry, each as it is spelt on the line.
ghost use Rattle.std.specs.Prelude.{◌≡◌, ◌+◌, ◌≤◌, [], ◌∷◌, length, decimal};
ghost use Rattle.units.specs.Measuring.{kind_letter};
ghost use Rattle.lines.specs.Forms.{type_word, reported_word, exempt_word};
ghost use Rattle.lines.specs.Spelling.{entry_words};
ghost use Rattle.writer.specs.Drafts.{Added, behind};

use crate::drafts::Draft;
use itoa::Buffer;
use units::codes::Designator;
use units::entries::Entry;
use units::measures::Kind;

impl Draft {
    pub(crate) fn number(&mut self, value: u32)
        requires { length self.old + 11 ≤ 80 }
        ensures { Added self.old (decimal value) self.new 10 }
    {
        let mut digits = Buffer::new();
        self.field(digits.format(value).as_bytes());
    }

    fn designator(&mut self, designator: Designator)
        requires { length self.old + 5 ≤ 80 }
        ensures { Added self.old (type_word designator) self.new 4 }
    {
        let bytes = designator.bytes;
        if bytes[2] == b' ' {
            self.field(&bytes[..2]);
        } else if bytes[3] == b' ' {
            self.field(&bytes[..3]);
        } else {
            self.field(&bytes);
        }
    }

    fn kind(&mut self, kind: Kind)
        requires { length self.old + 2 ≤ 80 }
        ensures { Added self.old (kind_letter kind ∷ []) self.new 1 }
    {
        self.field(&[char::from(kind) as u8]);
    }

    // Nothing where no fuel was reported.
    fn reported(&mut self, reported: Option<u32>)
        requires { length self.old + 11 ≤ 80 }
        ensures { Added self.old (reported_word reported) self.new 10 }
    {
        match reported {
            Some(kilograms) => self.number(kilograms),
            None => self.field(b""),
        }
    }

    fn exempt(&mut self, exempt: bool)
        requires { length self.old + 2 ≤ 80 }
        ensures { Added self.old (exempt_word exempt) self.new 1 }
    {
        self.field(if exempt { b"X" } else { b"" });
    }

    pub(crate) fn entry(&mut self, entry: Entry)
        requires { length self.old ≤ 3 }
        ensures { self.new ≡ behind self.old (entry_words entry) }
    {
        self.number(entry.reference);
        self.designator(entry.designator);
        self.field(&entry.departure.bytes);
        self.field(&entry.arrival.bytes);
        self.kind(entry.measure.kind);
        self.number(entry.measure.amount);
        self.number(entry.flights);
        self.reported(entry.reported);
        self.exempt(entry.exempt);
    }
}
