// The forecast and the calendar-year tally.
ghost use Rattle.std.specs.Prelude.{◌≡◌, length};
ghost use Rattle.model.specs.Records.{set_of};
ghost use Rattle.model.specs.PaidReserve.{NearReserves};
ghost use Rattle.year_tally.specs.TallyAdd.{tally_add};
ghost use Rattle.model.specs.Calls.{if_accepted, forecast_answer, forecast_output, forecast_with_answer, forecast_with_output};

use refusals::refusal_number;

// The forecast: the cells go to the front of the output, the leftover of year i to place i - 1.
#[unsafe(no_mangle)]
#[tactic(auto, using(forecast::specs::FileLaws::forecast_line))]
pub extern "C" fn pardesul_forecast(
    file: &[u8],
    m: usize,
    method: u64,
    basis: u64,
    line: &mut u64,
    out: &mut [i64],
    leftovers: &mut [i64; 20],
) -> u64
    ensures value { result ≡ (forecast_answer m file.now method basis (length out.old)).refusal }
    ensures line_after { line.new ≡ if_accepted result (forecast_answer m file.now method basis (length out.old)).line line.old }
    ensures out_after { out.new ≡ forecast_output m file.now method basis out.old }
    ensures leftovers_after { leftovers.new ≡ if_accepted result (forecast_answer m file.now method basis (length out.old)).leftovers leftovers.old }
    ensures near_reserves { result ≡ 0 → method ≡ 0 → basis ≡ 1 → NearReserves m (set_of m file.now).paid out.new }
{
    let answer = forecast::forecast_into(file, m, method, basis, leftovers, out);
    let refusal = refusal_number(answer);
    triangles::store_line(file, refusal, line);
    refusal
}

// The forecast by delays that are given.
#[unsafe(no_mangle)]
#[tactic(auto, using(forecast::specs::FileLaws::forecast_with_line))]
pub extern "C" fn pardesul_forecast_with_delays(
    file: &[u8],
    m: usize,
    method: u64,
    basis: u64,
    delays: &[i64],
    line: &mut u64,
    out: &mut [i64],
    leftovers: &mut [i64; 20],
) -> u64
    ensures value { result ≡ (forecast_with_answer m file.now method basis delays.now (length out.old)).refusal }
    ensures line_after { line.new ≡ if_accepted result (forecast_with_answer m file.now method basis delays.now (length out.old)).line line.old }
    ensures out_after { out.new ≡ forecast_with_output m file.now method basis delays.now out.old }
    ensures leftovers_after { leftovers.new ≡ if_accepted result (forecast_with_answer m file.now method basis delays.now (length out.old)).leftovers leftovers.old }
    ensures near_reserves { result ≡ 0 → method ≡ 0 → basis ≡ 1 → NearReserves m (set_of m file.now).paid out.new }
{
    let answer = forecast::forecast_with_delays_into(
        file, m, method, basis, delays, leftovers, out,
    );
    let refusal = refusal_number(answer);
    triangles::store_line(file, refusal, line);
    refusal
}

// The calendar-year tally with one cell added.
#[unsafe(no_mangle)]
pub extern "C" fn pardesul_tally_add(
    rbns: &mut [i64; 38],
    ibnr: &mut [i64; 38],
    year: u64,
    reported: i64,
    unreported: i64,
)
    ensures rbns_after { rbns.new ≡ (tally_add (record { rbns = rbns.old; ibnr = ibnr.old }) year reported unreported).rbns }
    ensures ibnr_after { ibnr.new ≡ (tally_add (record { rbns = rbns.old; ibnr = ibnr.old }) year reported unreported).ibnr }
{
    let tally = year_tally::Tally {
        rbns: *rbns,
        ibnr: *ibnr,
    };
    let next = tally.add(year, reported, unreported);
    // by a variable: the prover covers no list stored straight from field to field
    let sums = next.rbns;
    *rbns = sums;
    let sums = next.ibnr;
    *ibnr = sums;
}
