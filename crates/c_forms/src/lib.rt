// Forms of C, where a value of Rattle's has none: an inflation as a kind and a ratio, a date as
// three numbers.
#![tactic(auto)]

ghost use Rattle.std.specs.Prelude.{◌≡◌};
ghost use Rattle.c_forms.specs.Inflations.{kind_of, ratio_of, kinds_of, ratios_of};
ghost use Rattle.c_forms.specs.Dates.{date_in};

use model::{Date, Inflation, YearInflation};

// The C interface's number of a kind: 0 the base year, 1 no payments yet, 2 a ratio.
#[tactic(auto, unfolding(crate::specs::Inflations::kind_of))]
fn kind(value: Inflation) -> u8
    ensures { result ≡ kind_of value }
{
    match value {
        Inflation::BaseYear => 0,
        Inflation::NoPaymentsYet => 1,
        Inflation::Ratio(_) => 2,
    }
}

// The ratio, 0 where there is none.
#[tactic(auto, unfolding(crate::specs::Inflations::ratio_of))]
fn ratio(value: Inflation) -> f64
    ensures { result ≡ ratio_of value }
{
    match value {
        Inflation::BaseYear | Inflation::NoPaymentsYet => 0.0,
        Inflation::Ratio(x) => x,
    }
}

// The kinds and the ratios of a list of inflations.
pub fn split(inflations: [YearInflation; 20], kinds: &mut [u8; 20], ratios: &mut [f64; 20])
    ensures kinds_after { kinds.new ≡ kinds_of inflations }
    ensures ratios_after { ratios.new ≡ ratios_of inflations }
{
    *kinds = [0; 20];
    *ratios = [0.0; 20];
    // one loop for both: `map`, once for each, copies the list and was slower
    for k in 0..20 {
        let value = inflations[k].value;
        kinds[k] = kind(value);
        ratios[k] = ratio(value);
    }
}

// The date of three numbers: year, month and day. No `From`: neither type is this crate's.
pub fn date(numbers: &[u64; 3]) -> Date
    ensures { result ≡ date_in numbers.now }
{
    let [year, month, day] = *numbers;
    Date { year, month, day }
}
