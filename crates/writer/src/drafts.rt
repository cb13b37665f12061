// A line in the making: its length is known before a byte of the caller's buffer is written.
ghost use Rattle.std.specs.Prelude.{◌≡◌, ◌+◌, ◌≤◌, [], ◌∷◌, ◌++◌, length};
ghost use Rattle.lines.specs.Fields.{comma};

use arrayvec::ArrayVec;
use lines::reading::LINE_LIMIT;
use std::marker::Model;

#[derive(Drop)]
pub(crate) struct Draft {
    line: ArrayVec<u8, LINE_LIMIT>,
}

impl Model for Draft {
    ghost use Rattle.std.specs.Prelude.{ℕ, List};

    ghost Value = { List ℕ };

    ghost view = { λ draft. draft.line.items };
}

impl Draft {
    pub(crate) fn new() -> Draft
        ensures { result ≡ [] }
    {
        Draft {
            line: ArrayVec::new(),
        }
    }

    // Each part asks for room of its own length, so the line's type cannot say it for all.
    pub(crate) fn put(&mut self, part: &[u8])
        requires { length self.old + length part.now ≤ 80 }
        ensures { self.new ≡ self.old ++ part.now }
    {
        self.line.try_extend_from_slice(part).unwrap();
    }

    // A comma and a field.
    pub(crate) fn field(&mut self, part: &[u8])
        requires { length self.old + 1 + length part.now ≤ 80 }
        ensures { self.new ≡ self.old ++ (comma ∷ part.now) }
    {
        self.put(b",");
        self.put(part);
    }

    pub(crate) fn as_slice(&self) -> &[u8]
        ensures { result.now ≡ self.now }
    {
        self.line.as_slice()
    }
}
