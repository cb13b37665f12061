// Fuel in whole grams, CO2 in hundredths of a gram, and rounding.
ghost use Rattle.std.specs.Prelude.{◌≡◌};
ghost use Rattle.units.specs.Amount.{nearest as nearly, co2 as emitted};

// The most fuel of one flight, in grams.
pub const FUEL_LIMIT: u64 = 400_000_000;

// A tonne of CO2, in hundredths of a gram.
pub const TONNE: u64 = 100_000_000;

// `n / d` to the nearest whole number, halves upward; 0 where `d` is 0.
pub fn nearest(n: u64, d: u64) -> u64
    ensures { result ≡ nearly n d }
{
    if d == 0 {
        return 0;
    }
    let twice = 2 * n as u128 + d as u128;
    (twice / (2 * d as u128)) as u64
}

// The CO2 of `fuel` grams, in hundredths of a gram.
pub fn co2(fuel: u64) -> u128
    ensures { result ≡ emitted fuel }
{
    316 * fuel as u128
}
