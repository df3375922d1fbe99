// What of a tally falls due before a date (02, Job 5).
#![tactic(auto)]

ghost use Rattle.std.specs.Prelude.{◌≡◌, true, ℕ, ◌*◌, ◌^◌, ◌≤◌, nat_abs};
ghost use Rattle.model.specs.Lists.{at};
ghost use Rattle.model.specs.Dates.{is_date, day_number};
ghost use Rattle.model.specs.Cash.{year_start, full_years, year_total, due_before};
ghost use Rattle.model.specs.Questions.{is_valuation};
ghost use Rattle.tally.specs.YearRows.{Modest};

use arithmetic::spaced_sum;
use dates::day_number;
use forecast_years::forecast_year;
use model::Date;
use rounding::round_share;
use year_tally::Tally;

// RBNS and IBNR of the first k forecast years.
fn full_years(tally: &Tally, k: usize) -> i64
    requires { Modest tally.now.rbns × Modest tally.now.ibnr × (k ≤ 38) }
    ensures { result ≡ full_years tally.now k }
{
    spaced_sum(&tally.rbns, 0, 1, k) + spaced_sum(&tally.ibnr, 0, 1, k)
}

// The number at a place of a list, 0 past its end.
fn number_at(xs: &[i64], k: usize) -> i64
    ensures { result ≡ at xs.now k }
{
    xs.get(k).copied().unwrap_or(0)
}

// RBNS and IBNR of forecast year k + 1, 0 past the last.
fn year_total(tally: &Tally, k: usize) -> i64
    requires { Modest tally.now.rbns × Modest tally.now.ibnr }
    ensures { result ≡ year_total tally.now k }
{
    number_at(&tally.rbns, k) + number_at(&tally.ibnr, k)
}

// The amount due before a date of the forecast years, or the day after them.
pub fn due_before(tally: &Tally, valuation: Date, date: Date) -> i64
    requires modest { Modest tally.now.rbns × Modest tally.now.ibnr }
    requires valuation_value { (is_valuation valuation ≡ true) × (is_date date ≡ true) }
    requires valuation_bound { (day_number valuation ≤ day_number date) × (day_number date ≤ year_start valuation 38) }
    ensures amount { (n : ℕ) → day_number date ≤ year_start valuation n → result ≡ due_before n tally.now valuation (day_number date) }
    ensures small { nat_abs result ≤ 4 * 10 ^ 18 }
{
    let day = day_number(date);
    let year = forecast_year(valuation, date, day);
    let days = year.next - year.start;
    let passed = day - year.start;
    let ended = year.ended as usize;
    let full = full_years(tally, ended);
    let total = year_total(tally, ended);
    round_share(full, total, passed as i64, days as i64)
}
