// The forecast years of a valuation date (02, Job 5), and question 19.
#![tactic(auto)]

ghost use Rattle.std.specs.Prelude.{◌≡◌, true, ◌≤◌};
ghost use Rattle.model.specs.Dates.{is_date, day_number};
ghost use Rattle.model.specs.Cash.{year_start};
ghost use Rattle.model.specs.Questions.{is_valuation, in_years, q19};
ghost use Rattle.forecast_years.specs.YearsLaws.{YearOf};

use dates::{anniversary, day_number, is_date};
use model::Date;

// Whether a valuation date is possible and of the years 1900 to 2199.
#[tactic(auto, unfolding(model::specs::Questions::is_valuation))]
fn is_valuation(date: Date) -> bool
    ensures { result ≡ is_valuation date }
{
    is_date(date) && (1900..=2199).contains(&date.year)
}

// The number of anniversary t of a valuation date: the day on which forecast year t + 1 starts.
fn year_start(valuation: Date, t: u64) -> u64
    requires { (is_valuation valuation ≡ true) × (t ≤ 39) }
    ensures { result ≡ year_start valuation t }
{
    day_number(anniversary(valuation, t))
}

// A forecast year: how many have ended before it, the number of the day on which it starts, and
// that of the day after it.
#[derive(Clone, Copy)]
pub struct ForecastYear {
    pub ended: u64,
    pub start: u64,
    pub next: u64,
}

// The forecast year in which a date lies, whose number is `day`: as many have ended as the years
// differ, or one less where the anniversary of its year is still to come.
pub fn forecast_year(valuation: Date, date: Date, day: u64) -> ForecastYear
    requires valuation_value { (is_valuation valuation ≡ true) × (is_date date ≡ true) × (day ≡ day_number date) }
    requires valuation_bound { (day_number valuation ≤ day) × (day ≤ year_start valuation 38) }
    ensures { YearOf valuation day result.ended result.start result.next }
{
    let years = date.year - valuation.year;
    let start = year_start(valuation, years);
    if day < start {
        let ended = years - 1;
        ForecastYear {
            ended,
            start: year_start(valuation, ended),
            next: start,
        }
    } else {
        ForecastYear {
            ended: years,
            start,
            next: year_start(valuation, years + 1),
        }
    }
}

// Question 19 of the window's two dates, where all three are possible. No forecast year goes past
// 2237.
#[tactic(auto, unfolding(model::specs::Questions::in_years))]
fn in_years(m: usize, valuation: Date, start: Date, end: Date) -> bool
    requires { (is_valuation valuation ≡ true) × (is_date start ≡ true) × (is_date end ≡ true) × (2 ≤ m) × (m ≤ 20) }
    ensures { result ≡ in_years m valuation start end }
{
    if 2237 < start.year || 2237 < end.year {
        return false;
    }
    let from = day_number(start);
    let to = day_number(end);
    let last = year_start(valuation, 2 * m as u64 - 2);
    day_number(valuation) <= from && from <= to && from < last && to <= last
}

// Question 19. The three dates go one by one, as in the public call of cash by dates.
#[tactic(auto, unfolding(model::specs::Questions::q19))]
pub fn q19(m: usize, valuation: Date, start: Date, end: Date) -> bool
    requires { (2 ≤ m) × (m ≤ 20) }
    ensures { result ≡ q19 m valuation start end }
{
    is_valuation(valuation) && is_date(start) && is_date(end) && in_years(m, valuation, start, end)
}
