// The forecast of a set, under three methods: questions 9 to 14, or 20 in place of 12.
#![tactic(auto)]

ghost use Rattle.std.specs.Prelude.{◌≡◌, ◌≤◌, length};
ghost use Rattle.std.specs.Option.{option_copied};
ghost use Rattle.model.specs.Delays.{delays_of};
ghost use Rattle.model.specs.Cells.{size};
ghost use Rattle.model.specs.Questions.{first_no};
ghost use Rattle.model.specs.PaidReserve.{NearReserves};
ghost use Rattle.model.specs.Lent.{lent_set, triangle_in};
ghost use Rattle.model.specs.declared.TriangleSet.{TriangleSet};
ghost use Rattle.refusals.specs.Refusals.{refusal_number};
ghost use Rattle.set_forecast.specs.SetForecast.{InRange, Given, Answered, method_refusal, set_refusal, of_either, either_delays};

use ladder::ChainLadder;
use refusals::Refusal;
use years::cell_forecast;

// The forecast of a set from what is prepared of it: questions 13 and 14, the leftovers, and the
// cells at the front of the output. Several methods can share what is prepared, and its delays may
// come from elsewhere. A refusal leaves the lent memory as it was. Method and basis are numbers
// here, as in the calls; of the basis any one, so an enum would ask more.
pub fn forecast_prepared(
    set: &[i64; 1200],
    m: usize,
    method: u64,
    basis: u64,
    counts: &ChainLadder,
    paid: &ChainLadder,
    p: [i64; 20],
    leftovers: &mut [i64; 20],
    out: &mut [i64],
) -> Result<(), Refusal>
    requires { Given m set.now method counts.now.latest counts.now.g paid.now.latest paid.now.g p × (size m ≤ length out.old) }
    ensures { (like : TriangleSet) → let s = lent_set like set.now in Answered (method_refusal m s method) m s p method basis (refusal_number result) leftovers.old leftovers.new out.old out.new }
{
    let mut v = [0i64; 20];
    row_bases::method_bases(set, m, method, paid, &mut v, leftovers)?;
    let shares = counts.shares(m);
    cell_forecast(out, m, basis, set, &shares, counts, &v, p);
    Ok(())
}

// The forecast of a set with the delays from either side: the lent ones where some are given,
// else those solved here. Questions 9 to 11, 20 or 12, 13 and 14, the leftovers, and the cells at
// the front of the output; demand 3 among its promises. A refusal leaves the lent memory as it was.
pub fn forecast_either(
    set: &[i64; 1200],
    m: usize,
    method: u64,
    basis: u64,
    given: Option<&[i64]>,
    leftovers: &mut [i64; 20],
    out: &mut [i64],
) -> Result<(), Refusal>
    requires { InRange m set.now method × (size m ≤ length out.old) }
    ensures fact { (like : TriangleSet) → let s = lent_set like set.now in Answered (first_no (of_either m s (option_copied given.entry) method)) m s (either_delays m s (option_copied given.entry)) method basis (refusal_number result) leftovers.old leftovers.new out.old out.new }
    ensures near_reserves { refusal_number result ≡ 0 → method ≡ 0 → basis ≡ 1 → NearReserves m (triangle_in 1 set.now) out.new }
{
    let mut counts = ChainLadder {
        latest: [0; 20],
        g: [0; 20],
    };
    let mut paid = counts;
    let mut p = [0i64; 20];
    delays::prepare_from(set, m, given, &mut counts, &mut paid, &mut p)?;
    forecast_prepared(set, m, method, basis, &counts, &paid, p, leftovers, out)
}

// The same with the delays solved here: questions 9 to 14.
pub fn forecast_set(
    set: &[i64; 1200],
    m: usize,
    method: u64,
    basis: u64,
    leftovers: &mut [i64; 20],
    out: &mut [i64],
) -> Result<(), Refusal>
    requires { InRange m set.now method × (size m ≤ length out.old) }
    ensures fact { (like : TriangleSet) → let s = lent_set like set.now in Answered (set_refusal m s method) m s (delays_of m s) method basis (refusal_number result) leftovers.old leftovers.new out.old out.new }
    ensures near_reserves { refusal_number result ≡ 0 → method ≡ 0 → basis ≡ 1 → NearReserves m (triangle_in 1 set.now) out.new }
{
    forecast_either(set, m, method, basis, None, leftovers, out)
}
