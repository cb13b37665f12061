// Categories of custom types, with their masses and coefficients.
ghost use Rattle.std.specs.Prelude.{◌≡◌, ◌+◌, ◌*◌, ◌^◌, ◌<◌, ◌≤◌, unsigned_abs};
ghost use Rattle.layers.specs.Equation.{category_number, categorised, mass_fits, coefficient as coefficient_of, linear as linear_of, value, grams as grams_of, equation};
ghost use Rattle.layers.specs.Above.{capped as at_most};

use crate::layer::capped;
use estimators::answers::{Answer, NoEstimate};
use units::amounts::nearest;
use units::measures::{Kind, Measure, Unknown};

#[derive(Clone, Copy, Debug, PartialEq, Eq)]
pub enum Category {
    HeavyJet,
    Jet,
    LightJet,
    Turboprop,
}

// a, b, c and d of categories 1 to 4, by distance and then by time, in units of 10^-10 kg.
// One flat table of 32 numbers, so that it is read beside the published one, and number by number is the contract's.
const COEFFICIENTS: [i128; 32] = [
    -17_383_237_890_000,
    154_944_760,
    8_514_009_440,
    258_006,
    1_025_191_681_000,
    115_873_690,
    10_354_257_870,
    294_163,
    1_866_981_954_000,
    141_212_570,
    1_726_555_680,
    510_469,
    -219_694_951_500,
    138_311_920,
    3_317_355_900,
    480_238,
    48_101_665_170_000,
    -367_401_500,
    -47_788_989_210,
    4_557_960,
    7_509_498_712_000,
    -122_454_600,
    46_834_606_870,
    4_841_680,
    235_312_462_600,
    24_410_580,
    41_351_097_410,
    5_328_740,
    -197_836_688_800,
    58_585_820,
    7_230_399_360,
    4_394_200,
];

impl From<Category> for u8 {
    ghost from_gives = { λ category number. number ≡ category_number category };

    fn from(category: Category) -> u8 {
        match category {
            Category::HeavyJet => 1,
            Category::Jet => 2,
            Category::LightJet => 3,
            Category::Turboprop => 4,
        }
    }
}

impl TryFrom<u32> for Category {
    type Error = Unknown<u32>;

    ghost try_from_gives = { λ number category. category ≡ categorised number };

    fn try_from(number: u32) -> Result<Category, Unknown<u32>> {
        match number {
            1 => Ok(Category::HeavyJet),
            2 => Ok(Category::Jet),
            3 => Ok(Category::LightJet),
            4 => Ok(Category::Turboprop),
            _ => Err(Unknown { given: number }),
        }
    }
}

impl Category {
    // Whether an average take-off mass, in kilograms, belongs to the category.
    pub(crate) fn has_mass(self, mass: u32) -> bool
        ensures { result ≡ mass_fits self mass }
    {
        match self {
            Category::HeavyJet => matches!(mass, 136_000..=640_000),
            Category::Jet => matches!(mass, 60_000..=135_999),
            Category::LightJet => matches!(mass, 5_701..=59_999),
            Category::Turboprop => matches!(mass, 5_701..=640_000),
        }
    }
}

fn coefficient(kind: Kind, category: Category, j: usize) -> i128
    requires { j < 4 }
    ensures is { result ≡ coefficient_of kind category j }
    ensures small { unsigned_abs result ≤ 50000000000000 }
{
    let by_kind = 16 * (u8::from(kind) as usize - 1);
    let by_category = 4 * (u8::from(category) as usize - 1);
    COEFFICIENTS[by_kind + by_category + j]
}

// a + b x, exactly.
fn linear(a: i128, b: i128, x: u32) -> i128
    requires { (unsigned_abs a < 2 ^ 80) × (unsigned_abs b < 2 ^ 80) }
    ensures is { result ≡ linear_of a b x }
    ensures small { (unsigned_abs a ≤ 50000000000000) × (unsigned_abs b ≤ 50000000000000) → unsigned_abs result < 2 ^ 80 }
{
    a + b * x as i128
}

// The equation's value, in units of 10^-10 kg.
#[tactic(auto, unfolding(crate::specs::Equation::value))]
fn value_of(category: Category, mass: u32, measure: Measure) -> i128
    ensures { result ≡ value measure.kind category mass measure.amount }
{
    let a = coefficient(measure.kind, category, 0);
    let b = coefficient(measure.kind, category, 1);
    let c = coefficient(measure.kind, category, 2);
    let d = coefficient(measure.kind, category, 3);
    linear(linear(a, b, mass), linear(c, d, mass), measure.amount)
}

// The answer at a value: below 0 it counts as 0, else it is taken to the nearest gram.
fn answer_at(value: i128) -> Answer
    ensures { result ≡ at_most (grams_of value) }
{
    // A value that does not fit 64 bits is far past the limit.
    let value = u64::try_from(value.max(0)).map_err(|_| NoEstimate::Beyond)?;
    capped(nearest(value, 10_000_000))
}

// The fuel of one flight by the generic equation.
pub(crate) fn by_category(category: Category, mass: u32, measure: Measure) -> Answer
    ensures { result ≡ equation category mass measure }
{
    answer_at(value_of(category, mass, measure))
}
