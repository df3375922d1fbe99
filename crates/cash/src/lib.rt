// Cash by dates (02, Job 5): what of a file's forecast falls due in a window.
#![tactic(auto)]

ghost use Rattle.std.specs.Prelude.{◌≡◌, ◌-◌, ◌*◌, IfOk};
ghost use Rattle.model.specs.Cash.{cash_in};
ghost use Rattle.model.specs.Calls.{file_tally, cash_refusal, cash_answer};
ghost use Rattle.refusals.specs.Refusals.{refusal_number};

use due::due_before;
use forecast_years::q19;
use model::{CashAnswer, Date};
use refusals::Refusal;
use tally::tally_of;

// What falls due in a window; method, basis and the dates are as the call has them.
fn due_in(
    file: &[u8],
    m: usize,
    method: u64,
    basis: u64,
    valuation: Date,
    start: Date,
    end: Date,
) -> Result<i64, Refusal>
    ensures value { refusal_number result ≡ cash_refusal m file.now method basis valuation start end }
    ensures amount { IfOk result (λ x. x ≡ cash_in (2 * m - 2) (file_tally m file.now method basis) valuation start end) }
{
    let mut set = [0i64; 1200];
    forecast::read_to_forecast(file, m, method, basis, &mut set)?;
    let mut leftovers = [0i64; 20];
    let mut entries = [0i64; 1560];
    set_forecast::forecast_set(&set, m, method, basis, &mut leftovers, &mut entries)?;
    if !q19(m, valuation, start, end) {
        return Err(Refusal::Dates);
    }
    let t = tally_of(&entries, m);
    let due = due_before(&t, valuation, end);
    let before = due_before(&t, valuation, start);
    Ok(due - before)
}

// The cash of a window, by method and basis: what falls due from its start on and before its end,
// counted in forecast years from the valuation date. Questions 1 to 6, 9 to 14, and 19; the amount
// and the line are 0 beside a refusal.
pub fn cash_in_window(
    file: &[u8],
    m: usize,
    method: u64,
    basis: u64,
    valuation: Date,
    start: Date,
    end: Date,
) -> CashAnswer
    ensures { result ≡ cash_answer m file.now method basis valuation start end }
{
    match due_in(file, m, method, basis, valuation, start, end) {
        Ok(amount) => CashAnswer {
            refusal: 0,
            line: triangles::line(file),
            amount,
        },
        Err(refusal) => CashAnswer {
            refusal: u64::from(refusal),
            line: 0,
            amount: 0,
        },
    }
}
