// What a key of a table is.
ghost use Rattle.std.specs.Prelude.{◌≡◌, ℕ, List};
ghost use Rattle.keys.specs.Compared.{compared};

use std::cmp::Ordering;

pub trait Key: Copy {
    // The numbers by which keys are compared: the first that differs decides.
    ghost digits: { Self → List ℕ };

    // Holds of every key that code can make, as that a code has four bytes.
    ghost sized: { Self → Type 0 };

    // Keys with the same digits are the same key.
    ghost told: { (a b : Self) → sized a → sized b → digits a ≡ digits b → a ≡ b };

    // The key of a blank record.
    ghost zero: { Self };

    // Not `Default`, whose contract names no value that a clause could cite.
    fn blank() -> Self
        ensures { result ≡ zero };

    // What `cmp` answers, and that both keys are sized: no contract of `cmp` says that, and a law would need it.
    fn compare(&self, other: &Self) -> Ordering
        ensures is { result ≡ compared (digits self.now) (digits other.now) }
        ensures sized { sized self.now × sized other.now };
}
