// The forecast of a file, under three methods, by the delays solved here or by given ones (02, Job
// 6).
#![tactic(auto)]

ghost use Rattle.std.specs.Prelude.{◌≡◌, pos, length, replicate};
ghost use Rattle.std.specs.Option.{option_copied};
ghost use Rattle.model.specs.Questions.{q6};
ghost use Rattle.model.specs.Records.{set_of};
ghost use Rattle.model.specs.PaidReserve.{NearReserves};
ghost use Rattle.model.specs.Calls.{if_accepted, forecast_answer, forecast_output, Forecasted, forecast_with_answer, forecast_with_output, ForecastedWith};
ghost use Rattle.refusals.specs.Refusals.{refusal_number};
ghost use Rattle.forecast.specs.ReadFile.{ReadToForecast};
ghost use Rattle.forecast.specs.FileLaws.{Into};

use model::ForecastAnswer;
use refusals::{Refusal, refusal_number};
use set_forecast::forecast_either;

// Question 6. Any method and basis may be handed in to the calls, so they are numbers.
fn q6(has_incurred: bool, method: u64, basis: u64) -> bool
    ensures { result ≡ q6 has_incurred method basis }
{
    method <= 2 && basis <= 1 && (method == 0 || has_incurred)
}

// Questions 1 to 6 of a file and, where each gets a yes, its set in the lent list, which comes as
// zeros.
pub fn read_to_forecast(
    file: &[u8],
    m: usize,
    method: u64,
    basis: u64,
    set: &mut [i64; 1200],
) -> Result<(), Refusal>
    requires { set.old ≡ replicate 1200 (pos 0) }
    ensures { ReadToForecast m file.now method basis (refusal_number result) set.new }
{
    triangles::read_cells(file, m, set)?;
    let has_incurred = triangles::has_incurred(file, m);
    if !q6(has_incurred, method, basis) {
        return Err(Refusal::Settings);
    }
    Ok(())
}

// The forecast of a file with the delays from either side, written into lent memory: the lent ones
// where some are given, else those solved here. Questions 1 to 7, 9 to 11, 20 or 12, 13 and 14.
fn forecast_file(
    file: &[u8],
    m: usize,
    method: u64,
    basis: u64,
    given: Option<&[i64]>,
    leftovers: &mut [i64; 20],
    out: &mut [i64],
) -> Result<(), Refusal>
    ensures { Into m file.now method basis (option_copied given.entry) out.old (refusal_number result) leftovers.old leftovers.new out.new }
{
    let mut set = [0i64; 1200];
    read_to_forecast(file, m, method, basis, &mut set)?;
    if out.len() < 2 * m * (2 * m - 1) {
        return Err(Refusal::OutputRoom);
    }
    forecast_either(&set, m, method, basis, given, leftovers, out)
}

// The forecast of a file, by method (0 DCL, 1 BDCL, 2 IDCL) and basis (0 actual, 1 estimated
// counts), written into lent memory: questions 1 to 7 and 9 to 14. The output's first 2m(2m - 1)
// entries are the cells, and the leftover of year i stands at place i - 1; a refusal leaves both as
// they were.
pub fn forecast_into(
    file: &[u8],
    m: usize,
    method: u64,
    basis: u64,
    leftovers: &mut [i64; 20],
    out: &mut [i64],
) -> Result<(), Refusal>
    ensures value { refusal_number result ≡ (forecast_answer m file.now method basis (length out.old)).refusal }
    ensures leftovers_after { leftovers.new ≡ if_accepted (refusal_number result) (forecast_answer m file.now method basis (length out.old)).leftovers leftovers.old }
    ensures out_after { out.new ≡ forecast_output m file.now method basis out.old }
    ensures near_reserves { refusal_number result ≡ 0 → method ≡ 0 → basis ≡ 1 → NearReserves m (set_of m file.now).paid out.new }
{
    forecast_file(file, m, method, basis, None, leftovers, out)
}

// The same forecast, with the refusal, the line and the leftovers handed back.
pub fn forecast(file: &[u8], m: usize, method: u64, basis: u64, out: &mut [i64]) -> ForecastAnswer
    ensures { Forecasted m file.now method basis out.old out.new result }
{
    let mut leftovers = [0i64; 20];
    let answer = forecast_into(file, m, method, basis, &mut leftovers, out);
    let refusal = refusal_number(answer);
    let mut line = 0;
    triangles::store_line(file, refusal, &mut line);
    ForecastAnswer {
        refusal,
        line,
        leftovers,
    }
}

// The forecast of a file by delays that are given, in billionths, written into lent memory as by
// `forecast_into`: questions 1 to 7, 9 to 11, 20, 13 and 14.
pub fn forecast_with_delays_into(
    file: &[u8],
    m: usize,
    method: u64,
    basis: u64,
    delays: &[i64],
    leftovers: &mut [i64; 20],
    out: &mut [i64],
) -> Result<(), Refusal>
    ensures value { refusal_number result ≡ (forecast_with_answer m file.now method basis delays.now (length out.old)).refusal }
    ensures leftovers_after { leftovers.new ≡ if_accepted (refusal_number result) (forecast_with_answer m file.now method basis delays.now (length out.old)).leftovers leftovers.old }
    ensures out_after { out.new ≡ forecast_with_output m file.now method basis delays.now out.old }
    ensures near_reserves { refusal_number result ≡ 0 → method ≡ 0 → basis ≡ 1 → NearReserves m (set_of m file.now).paid out.new }
{
    forecast_file(file, m, method, basis, Some(delays), leftovers, out)
}

// The same forecast, with the refusal, the line and the leftovers handed back.
pub fn forecast_with_delays(
    file: &[u8],
    m: usize,
    method: u64,
    basis: u64,
    delays: &[i64],
    out: &mut [i64],
) -> ForecastAnswer
    ensures { ForecastedWith m file.now method basis delays.now out.old out.new result }
{
    let mut leftovers = [0i64; 20];
    let answer = forecast_with_delays_into(file, m, method, basis, delays, &mut leftovers, out);
    let refusal = refusal_number(answer);
    let mut line = 0;
    triangles::store_line(file, refusal, &mut line);
    ForecastAnswer {
        refusal,
        line,
        leftovers,
    }
}
