// Dates of the Gregorian calendar (02, Job 5): their numbers, and the anniversaries of a date.
#![tactic(auto)]

ghost use Rattle.std.specs.Prelude.{◌≡◌, true, ◌+◌, ◌≤◌};
ghost use Rattle.model.specs.Dates.{leap, month_length, is_date, days_before_year, days_before_month, day_number, anniversary_day, anniversary};

use model::Date;

// The days of each month of a common year.
const MONTH_DAYS: [u64; 12] = [31, 28, 31, 30, 31, 30, 31, 31, 30, 31, 30, 31];

// Whether a year is a leap year.
#[tactic(auto, unfolding(model::specs::Dates::leap))]
pub fn is_leap(year: u64) -> bool
    ensures { result ≡ leap year }
{
    year % 4 == 0 && (year % 100 != 0 || year % 400 == 0)
}

// The days of a month, 1 to 12, of a leap year or a common one; 0 for another number.
#[tactic(auto, unfolding(model::specs::Dates::month_length, model::specs::Dates::month_days))]
pub fn month_length(leap: bool, month: u64) -> u64
    ensures { result ≡ month_length leap month }
{
    match month {
        2 if leap => 29,
        1..=12 => MONTH_DAYS[(month - 1) as usize],
        _ => 0,
    }
}

// Whether there is such a date.
#[tactic(auto, unfolding(model::specs::Dates::is_date))]
pub fn is_date(date: Date) -> bool
    ensures { result ≡ is_date date }
{
    1 <= date.day && date.day <= month_length(is_leap(date.year), date.month)
}

// The days of the years from 0 on before a year: 365 each, and one more for each leap year.
#[tactic(auto, using(crate::specs::DatesLaws::years_by_division))]
fn days_before_year(year: u64) -> u64
    requires { year ≤ 9999 }
    ensures { result ≡ days_before_year year }
{
    365 * year + (year + 3) / 4 + (year + 399) / 400 - (year + 99) / 100
}

// The days of a year before a month: those of a common year, and 29 February.
fn days_before_month(leap: bool, month: u64) -> u64
    requires { (1 ≤ month) × (month ≤ 12) }
    ensures { result ≡ days_before_month leap month }
{
    let common: u64 = MONTH_DAYS[..(month - 1) as usize].iter().sum();
    if leap && 3 <= month {
        common + 1
    } else {
        common
    }
}

// The number of a date.
#[tactic(auto, unfolding(model::specs::Dates::day_number))]
pub fn day_number(date: Date) -> u64
    requires { (is_date date ≡ true) × (date.year ≤ 9999) }
    ensures { result ≡ day_number date }
{
    let leap = is_leap(date.year);
    days_before_year(date.year) + days_before_month(leap, date.month) + date.day
}

// The day of the month of an anniversary, in a leap year or a common one.
#[tactic(auto, unfolding(model::specs::Dates::anniversary_day))]
fn anniversary_day(month: u64, day: u64, leap: bool) -> u64
    ensures { result ≡ anniversary_day month day leap }
{
    if month == 2 && day == 29 && !leap {
        28
    } else {
        day
    }
}

// Anniversary t of a date.
#[tactic(auto, unfolding(model::specs::Dates::anniversary))]
pub fn anniversary(date: Date, t: u64) -> Date
    requires { date.year + t ≤ 9999 }
    ensures { result ≡ anniversary date t }
{
    let year = date.year + t;
    Date {
        year,
        month: date.month,
        day: anniversary_day(date.month, date.day, is_leap(year)),
    }
}
