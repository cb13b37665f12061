// The fields of a line.
ghost use Rattle.std.specs.Prelude.{◌≡◌, ◌≤◌, length, take};
ghost use Rattle.std.specs.Option.{ok_or};
ghost use Rattle.units.specs.declared.refusals.Refusal.TheVariants.{LineVerb};
ghost use Rattle.lines.specs.Fields.{split, part};
ghost use Rattle.lines.specs.Forms.{verb};
ghost use Rattle.lines.specs.Laws.{SpeltAgain};
ghost use Rattle.lines.specs.Reading.{asked, parts_read};
ghost use Rattle.lines.specs.Tokens.{Stands};

use crate::forms::Spelled;
use crate::orders::Verb;
use crate::tokens::Token;
use arrayvec::ArrayVec;
use units::refusals::Refusal;

// The first ten fields of a line, and how many it has.
#[derive(Drop)]
pub(crate) struct Fields<'a> {
    first: ArrayVec<&'a [u8], 10>,
    pub(crate) count: usize,
}

impl<'a> Fields<'a> {
    ghost use Rattle.lines.specs.Kept.{parts_of};

    // A loop, since one pass both keeps and counts. The law is stated here, where every reading begins, so that what
    // follows is proved of its own code.
    pub(crate) fn of(line: &'a [u8]) -> Fields<'a>
        ensures first { parts_of result ≡ take 10 (split line.now) }
        ensures count { result.count ≡ length (split line.now) }
        ensures again { SpeltAgain (parts_read (split line.now)) line.now }
    {
        let mut first = ArrayVec::new();
        let mut count = 0;
        for part in line.split(|b| *b == b',') {
            if !first.is_full() {
                first.push(part);
            }
            count += 1;
        }
        Fields { first, count }
    }

    // Field `number`, counted from 1; empty past the last that is kept.
    fn token(&self, number: usize) -> Token<'a>
        requires { 1 ≤ number }
        ensures { Stands result number (part number (parts_of self.now)) }
    {
        let part = self.first.get(number - 1).copied().unwrap_or_default();
        Token::of(number, part)
    }

    // The value of a field, or the refusal of one that is not of its form.
    pub(crate) fn at<T: Spelled>(&self, number: usize) -> Result<T, Refusal>
        requires { 1 ≤ number }
        ensures { result ≡ asked number (T.spelt (part number (parts_of self.now))) }
    {
        let token = self.token(number);
        token.value().ok_or(Refusal::LineField(token.number()))
    }

    pub(crate) fn verb(&self) -> Result<Verb, Refusal>
        ensures { result ≡ ok_or (verb (part 1 (parts_of self.now))) LineVerb }
    {
        self.token(1).value().ok_or(Refusal::LineVerb)
    }
}
