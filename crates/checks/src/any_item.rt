// Layers by the calls that take any kind of item: both kinds of the crate itself, and a kind of this one.
ghost use Rattle.std.specs.Prelude.{◌≡◌};
ghost use Rattle.units.specs.Alphabet.{designator};
ghost use Rattle.units.specs.declared.refusals.ListOwner.TheVariants.{OfDirectory};

use crate::directories::named;
use crate::example::{EXAMPLE, asked};
use book::checked::Book;
use layers::customs::CustomTypes;
use layers::equivalents::Equivalents;
use layers::items::{CustomType, Equivalent};
use layers::layer::Layer;
use lists::item::Item;
use units::codes::{Designator, is_designator};
use units::measures::Kind;
use units::refusals::ListOwner;

// A type that is in range or not, in a directory's list.
#[derive(Clone, Copy, Default)]
struct Switched {
    name: [u8; 4],
    fits: bool,
}

impl Item for Switched {
    ghost naming = { λ m. m.name };

    ghost formed = { λ m. designator m.name };

    ghost fitting = { λ m. m.fits };

    ghost OWNER = { OfDirectory };

    const OWNER: ListOwner = ListOwner::OfDirectory;

    fn name(&self) -> [u8; 4] {
        self.name
    }

    fn is_formed(&self) -> bool {
        is_designator(&self.name)
    }

    fn is_fitting(&self) -> bool {
        self.fits
    }
}

fn item(name: &[u8; 4], fits: bool) -> Switched {
    Switched { name: *name, fits }
}

#[test]
fn a_layer_takes_items_of_any_kind(rt: HostRuntime) {
    let mut layer: Layer<Book, Switched> = Layer::new(Book::of(&EXAMPLE));
    assert_eq!(rt; named(layer.add(item(b"at3 ", false))), Err(('D', 9)));
    assert_eq!(rt; named(layer.add(item(b"AT3 ", false))), Err(('D', 11)));
    assert_eq!(rt; named(layer.add(item(b"AT3 ", true))), Ok(()));
    assert_eq!(rt; named(layer.add(item(b"AT3 ", false))), Err(('D', 10)));
    for i in 0..63u8 {
        let name = [b'B', b'A' + i / 10, b'0' + i % 10, b' '];
        assert_eq!(rt; named(layer.add(item(&name, true))), Ok(()));
    }
    assert_eq!(rt; named(layer.add(item(b"at3 ", false))), Err(('D', 8)));
}

#[test]
fn both_kinds_begin_and_list_by_the_general_calls(rt: HostRuntime) {
    let named_type = Designator { bytes: *b"GL7T" };
    let mut below = Equivalents::new(Book::of(&EXAMPLE));
    let third = Equivalent {
        designator: Designator { bytes: *b"AT3 " },
        named: named_type,
        p: 1,
        q: 3,
    };
    assert_eq!(rt; asked(&below, b"AT3 ", Kind::Distance, 750), Err(22));
    assert_eq!(rt; named(below.add(third)), Ok(()));
    assert_eq!(rt; named(below.add(third)), Err(('E', 10)));
    let mut layer = CustomTypes::new(below);
    let turboprop = CustomType {
        designator: Designator { bytes: *b"C1  " },
        category: 4,
        mass: 20_000,
    };
    assert_eq!(rt; asked(&layer, b"C1  ", Kind::Distance, 500), Err(22));
    assert_eq!(rt; named(layer.add(turboprop)), Ok(()));
    assert_eq!(rt; asked(&layer, b"AT3 ", Kind::Distance, 750), Ok(667_333));
    assert_eq!(rt; asked(&layer, b"C1  ", Kind::Distance, 500), Ok(900_760));
}
