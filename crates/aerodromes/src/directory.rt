// What every directory is.
ghost use Rattle.std.specs.Prelude.{◌≡◌, ℕ, Option};
ghost use Rattle.units.specs.declared.codes.AerodromeCode.{AerodromeCode};
ghost use Rattle.aerodromes.specs.Laws.{Laws};

use units::codes::AerodromeCode;

pub trait Directory {
    // The State of each aerodrome that is known.
    ghost meaning: { Self → AerodromeCode → Option ℕ };

    // What each implementation shows of its meaning.
    ghost laws: { Laws meaning };

    fn state_of(&self, code: AerodromeCode) -> Option<u16>
        ensures { result ≡ meaning self.now code };
}
