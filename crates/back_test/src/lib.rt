// The back-test of a file: the forecast of the set without its latest calendar years, held against
// what was paid in them. A set is cut by its size: with n in the place of m only the cells with
// i + j <= n are looked at.
#![tactic(auto)]

ghost use Rattle.std.specs.Prelude.{◌≡◌, ◌+◌, ◌≤◌};
ghost use Rattle.model.specs.Calls.{refused_back_test, back_test_answer};
ghost use Rattle.model.specs.Lent.{lent_set};
ghost use Rattle.model.specs.declared.TriangleSet.{TriangleSet};
ghost use Rattle.set_forecast.specs.SetForecast.{InRange};
ghost use Rattle.back_test.specs.SetTest.{answer_of, set_test};

use gaps::errors::{cell_number, cellwise, overall, yearwise};
use gaps::gaps;
use ladder::ChainLadder;
use model::BackTestAnswer;
use refusals::Refusal;

// A refusal, with zeros beside it; each answer has fields of its own, so each has its own.
fn refused(number: u64) -> BackTestAnswer
    ensures { result ≡ refused_back_test number }
{
    BackTestAnswer {
        refusal: number,
        line: 0,
        cells: 0,
        cellwise: 0,
        yearwise: 0,
        overall: 0,
    }
}

// Questions 9 to 14 of the cut set, and the back-test of a set on a line.
fn test_set(
    set: &[i64; 1200],
    line: u64,
    m: usize,
    method: u64,
    basis: u64,
    c: usize,
) -> Result<BackTestAnswer, Refusal>
    requires { InRange m set.now method × (1 ≤ c) × (c + 2 ≤ m) }
    ensures { (like : TriangleSet) → line ≡ like.line → answer_of result ≡ set_test m (lent_set like set.now) c method basis }
{
    let n = m - c;
    let mut counts = ChainLadder {
        latest: [0; 20],
        g: [0; 20],
    };
    let mut paid = counts;
    let mut p = [0i64; 20];
    delays::prepare(set, n, &mut counts, &mut paid, &mut p)?;
    let mut v = [0i64; 20];
    let mut leftovers = [0i64; 20];
    row_bases::method_bases(set, n, method, &paid, &mut v, &mut leftovers)?;
    let shares = counts.shares(n);
    let mut d = [0i64; 400];
    gaps(&mut d, set, m, n, basis, &shares, &counts, &v, &p);
    let cells = cell_number(c, n);
    let cellwise = cellwise(&d, n);
    let yearwise = yearwise(&d, n, c);
    let overall = overall(&d, n);
    Ok(BackTestAnswer {
        refusal: 0,
        line,
        cells,
        cellwise,
        yearwise,
        overall,
    })
}

// Questions 1 to 6 and 8, then 9 to 14 of the cut set, and the back-test of a file; method and
// basis are numbers, as the call has them.
fn test_file(
    file: &[u8],
    m: usize,
    method: u64,
    basis: u64,
    c: usize,
) -> Result<BackTestAnswer, Refusal>
    ensures { answer_of result ≡ back_test_answer m file.now c method basis }
{
    let mut set = [0i64; 1200];
    forecast::read_to_forecast(file, m, method, basis, &mut set)?;
    if c < 1 || m - 2 < c {
        return Err(Refusal::Cut);
    }
    test_set(&set, triangles::line(file), m, method, basis, c)
}

// The back-test of a file with its latest c calendar years cut off: questions 1 to 6 and 8, then 9
// to 14 of the cut set.
pub fn back_test(file: &[u8], m: usize, method: u64, basis: u64, c: usize) -> BackTestAnswer
    ensures { result ≡ back_test_answer m file.now c method basis }
{
    match test_file(file, m, method, basis, c) {
        Ok(answer) => answer,
        Err(refusal) => refused(u64::from(refusal)),
    }
}
