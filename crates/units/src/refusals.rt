// Every refusal of the ledger, with what its place needs, and what it is called in print.
ghost use Rattle.std.specs.Prelude.{◌≡◌, Some};
ghost use Rattle.units.specs.Fault.{letter as letter_of, list_layer, called, fault as fault_of, fault_text, held};

use std::fmt;

#[derive(Clone, Copy, Debug, PartialEq, Eq)]
pub enum Layer {
    Book,
    Text,
    Directory,
    Estimator,
    Ledger,
}

// Whose short list an addition was refused by.
#[derive(Clone, Copy, Debug, PartialEq, Eq)]
pub enum ListOwner {
    OfDirectory,
    OfEstimator,
}

// One case for each refusal; docs/REFUSALS.md has the conditions. A number beside a case is its place as it is printed,
// of an item, a field or a table: an enum of fields would refuse places that a caller may give.
#[derive(Clone, Copy, Debug, PartialEq, Eq)]
pub enum Refusal {
    BookLength,
    BookHeader,
    BookOffsets,
    BookColumn(usize),
    BookRow(usize),
    BookAerodrome(usize),
    StateMark(usize),
    ListFull(ListOwner),
    ListCode(ListOwner),
    ListRepeated(ListOwner),
    ListValue(ListOwner),
    LineLength,
    LineVerb,
    LineFields,
    LineField(usize),
    LedgerYear,
    TableLength,
    OutOfRange(usize),
    ReferencePresent,
    DepartureUnknown,
    ArrivalUnknown,
    TypeUnknown,
    BeyondModel,
    EntriesFull,
    RowsFull(usize),
    RowUnsound,
    ReferenceAbsent,
    UnderQuery,
    NoGap,
    QueriesFull,
    OtherLedger,
    NoQuery,
    OpenQuery,
    BufferShort,
}

// A refusal as it is printed.
#[derive(Clone, Copy, Debug, PartialEq, Eq)]
pub struct Fault {
    pub layer: Layer,
    pub number: u32,
    pub place: usize,
}

impl From<Layer> for char {
    ghost from_gives = { λ layer letter. letter ≡ letter_of layer };

    fn from(layer: Layer) -> char {
        match layer {
            Layer::Book => 'B',
            Layer::Text => 'T',
            Layer::Directory => 'D',
            Layer::Estimator => 'E',
            Layer::Ledger => 'L',
        }
    }
}

impl From<ListOwner> for Layer {
    ghost from_gives = { λ owner layer. layer ≡ list_layer owner };

    fn from(owner: ListOwner) -> Layer {
        match owner {
            ListOwner::OfDirectory => Layer::Directory,
            ListOwner::OfEstimator => Layer::Estimator,
        }
    }
}

fn called(layer: Layer, number: u32, place: usize) -> Fault
    ensures { result ≡ called layer number place }
{
    Fault {
        layer,
        number,
        place,
    }
}

impl From<Refusal> for Fault {
    ghost from_gives = { λ refusal fault. fault ≡ fault_of refusal };

    fn from(refusal: Refusal) -> Fault {
        match refusal {
            Refusal::BookLength => called(Layer::Book, 1, 0),
            Refusal::BookHeader => called(Layer::Book, 2, 0),
            Refusal::BookOffsets => called(Layer::Book, 3, 0),
            Refusal::BookColumn(item) => called(Layer::Book, 4, item),
            Refusal::BookRow(item) => called(Layer::Book, 5, item),
            Refusal::BookAerodrome(item) => called(Layer::Book, 6, item),
            Refusal::StateMark(item) => called(Layer::Book, 7, item),
            Refusal::ListFull(owner) => called(owner.into(), 8, 0),
            Refusal::ListCode(owner) => called(owner.into(), 9, 0),
            Refusal::ListRepeated(owner) => called(owner.into(), 10, 0),
            Refusal::ListValue(owner) => called(owner.into(), 11, 0),
            Refusal::LineLength => called(Layer::Text, 12, 0),
            Refusal::LineVerb => called(Layer::Text, 13, 0),
            Refusal::LineFields => called(Layer::Text, 14, 0),
            Refusal::LineField(field) => called(Layer::Text, 15, field),
            Refusal::LedgerYear => called(Layer::Ledger, 16, 0),
            Refusal::TableLength => called(Layer::Ledger, 17, 0),
            Refusal::OutOfRange(field) => called(Layer::Ledger, 18, field),
            Refusal::ReferencePresent => called(Layer::Ledger, 19, 2),
            Refusal::DepartureUnknown => called(Layer::Directory, 20, 4),
            Refusal::ArrivalUnknown => called(Layer::Directory, 21, 5),
            Refusal::TypeUnknown => called(Layer::Estimator, 22, 3),
            Refusal::BeyondModel => called(Layer::Estimator, 23, 7),
            Refusal::EntriesFull => called(Layer::Ledger, 24, 0),
            Refusal::RowsFull(table) => called(Layer::Ledger, 25, table),
            Refusal::RowUnsound => called(Layer::Ledger, 26, 0),
            Refusal::ReferenceAbsent => called(Layer::Ledger, 27, 2),
            Refusal::UnderQuery => called(Layer::Ledger, 28, 2),
            Refusal::NoGap => called(Layer::Ledger, 29, 0),
            Refusal::QueriesFull => called(Layer::Ledger, 30, 0),
            Refusal::OtherLedger => called(Layer::Ledger, 31, 0),
            Refusal::NoQuery => called(Layer::Ledger, 32, 0),
            Refusal::OpenQuery => called(Layer::Text, 33, 0),
            Refusal::BufferShort => called(Layer::Text, 34, 0),
        }
    }
}

// A check that does not hold is refused.
pub fn hold(good: bool, refusal: Refusal) -> Result<(), Refusal>
    ensures { result ≡ held good refusal }
{
    if good { Ok(()) } else { Err(refusal) }
}

// The letter of the layer, the number and the place, as every program prints them.
impl fmt::Display for Fault {
    ghost output = { λ f. Some (fault_text f) };

    fn fmt<W: fmt::Write>(&self, f: &mut fmt::Formatter<W>) -> fmt::Result {
        write!(
            f,
            "{} {} {}",
            char::from(self.layer),
            self.number,
            self.place
        )
    }
}

impl fmt::Display for Refusal {
    ghost output = { λ r. Some (fault_text (fault_of r)) };

    fn fmt<W: fmt::Write>(&self, f: &mut fmt::Formatter<W>) -> fmt::Result {
        Fault::from(*self).fmt(f)
    }
}
