// What an item of a short list is.
ghost use Rattle.std.specs.Prelude.{◌≡◌, ℕ, Bool, List};
ghost use Rattle.units.specs.declared.refusals.ListOwner.{ListOwner};

use units::refusals::ListOwner;

pub trait Item: Copy {
    // Whose list it stands in.
    ghost OWNER: { ListOwner };

    const OWNER: ListOwner;

    // The four bytes by which an item is found.
    ghost naming: { Self → List ℕ };

    // Whether its codes are well formed.
    ghost formed: { Self → Bool };

    // Whether its other values are in range.
    ghost fitting: { Self → Bool };

    fn name(&self) -> [u8; 4]
        ensures { result ≡ naming self.now };

    fn is_formed(&self) -> bool
        ensures { result ≡ formed self.now };

    fn is_fitting(&self) -> bool
        ensures { result ≡ fitting self.now };
}
