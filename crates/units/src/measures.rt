// Distances in whole kilometres and block times in whole minutes.
ghost use Rattle.std.specs.Prelude.{◌≡◌};
ghost use Rattle.units.specs.Measuring.{kind_number, kind_letter, numbered, lettered, limit as most, in_range};

#[derive(Clone, Copy, Debug, PartialEq, Eq)]
pub enum Kind {
    Distance,
    Time,
}

#[derive(Clone, Copy, Debug, PartialEq, Eq)]
pub struct Measure {
    pub kind: Kind,
    pub amount: u32,
}

// A number or a letter that no case has.
#[derive(Clone, Copy, Debug, PartialEq, Eq)]
pub struct Unknown<T> {
    pub given: T,
}

impl From<Kind> for u8 {
    ghost from_gives = { λ kind number. number ≡ kind_number kind };

    fn from(kind: Kind) -> u8 {
        match kind {
            Kind::Distance => 1,
            Kind::Time => 2,
        }
    }
}

impl TryFrom<u32> for Kind {
    type Error = Unknown<u32>;

    ghost try_from_gives = { λ number kind. kind ≡ numbered number };

    fn try_from(number: u32) -> Result<Kind, Unknown<u32>> {
        match number {
            1 => Ok(Kind::Distance),
            2 => Ok(Kind::Time),
            _ => Err(Unknown { given: number }),
        }
    }
}

impl From<Kind> for char {
    ghost from_gives = { λ kind letter. letter ≡ kind_letter kind };

    fn from(kind: Kind) -> char {
        match kind {
            Kind::Distance => 'D',
            Kind::Time => 'T',
        }
    }
}

impl TryFrom<char> for Kind {
    type Error = Unknown<char>;

    ghost try_from_gives = { λ letter kind. kind ≡ lettered letter };

    fn try_from(letter: char) -> Result<Kind, Unknown<char>> {
        match letter {
            'D' => Ok(Kind::Distance),
            'T' => Ok(Kind::Time),
            _ => Err(Unknown { given: letter }),
        }
    }
}

impl Kind {
    // The greatest amount of this kind.
    pub fn limit(self) -> u32
        ensures { result ≡ most self }
    {
        match self {
            Kind::Distance => 20_020,
            Kind::Time => 1_500,
        }
    }
}

impl Measure {
    pub fn is_in_range(self) -> bool
        ensures { result ≡ in_range self }
    {
        self.amount <= self.kind.limit()
    }
}
