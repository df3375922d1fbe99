// Cash by dates.
ghost use Rattle.std.specs.Prelude.{◌≡◌};
ghost use Rattle.model.specs.Calls.{if_accepted, cash_answer};
ghost use Rattle.c_forms.specs.Dates.{date_in};

use c_forms::date;

// The cash of a window: what falls due from its start on and before its end.
#[unsafe(no_mangle)]
pub extern "C" fn pardesul_cash_in_window<'a>(
    file: &[u8],
    m: usize,
    method: u64,
    basis: u64,
    valuation: &'a [u64; 3],
    start: &'a [u64; 3],
    end: &'a [u64; 3],
    line: &mut u64,
    amount: &mut i64,
) -> u64
    ensures value { result ≡ (cash_answer m file.now method basis (date_in valuation.now) (date_in start.now) (date_in end.now)).refusal }
    ensures line_after { line.new ≡ if_accepted result (cash_answer m file.now method basis (date_in valuation.now) (date_in start.now) (date_in end.now)).line line.old }
    ensures amount_after { amount.new ≡ if_accepted result (cash_answer m file.now method basis (date_in valuation.now) (date_in start.now) (date_in end.now)).amount amount.old }
{
    let answer = cash::cash_in_window(
        file,
        m,
        method,
        basis,
        date(valuation),
        date(start),
        date(end),
    );
    let refusal = answer.refusal;
    if refusal != 0 {
        return refusal;
    }
    *amount = answer.amount;
    *line = answer.line;
    0
}
