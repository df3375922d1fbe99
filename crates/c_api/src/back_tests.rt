// The back-test.
ghost use Rattle.std.specs.Prelude.{◌≡◌};
ghost use Rattle.model.specs.Calls.{if_accepted, back_test_answer};

// The back-test with the latest c calendar years cut off: the number of cells compared, and the
// sums of absolute errors by cell, by calendar year and in all.
#[unsafe(no_mangle)]
pub extern "C" fn pardesul_back_test(
    file: &[u8],
    m: usize,
    method: u64,
    basis: u64,
    c: usize,
    line: &mut u64,
    cells: &mut u64,
    cellwise: &mut u64,
    yearwise: &mut u64,
    overall: &mut u64,
) -> u64
    ensures value { result ≡ (back_test_answer m file.now c method basis).refusal }
    ensures line_after { line.new ≡ if_accepted result (back_test_answer m file.now c method basis).line line.old }
    ensures cells_after { cells.new ≡ if_accepted result (back_test_answer m file.now c method basis).cells cells.old }
    ensures cellwise_after { cellwise.new ≡ if_accepted result (back_test_answer m file.now c method basis).cellwise cellwise.old }
    ensures yearwise_after { yearwise.new ≡ if_accepted result (back_test_answer m file.now c method basis).yearwise yearwise.old }
    ensures overall_after { overall.new ≡ if_accepted result (back_test_answer m file.now c method basis).overall overall.old }
{
    let answer = back_test::back_test(file, m, method, basis, c);
    let refusal = answer.refusal;
    if refusal != 0 {
        return refusal;
    }
    *line = answer.line;
    *cells = answer.cells;
    *cellwise = answer.cellwise;
    *yearwise = answer.yearwise;
    *overall = answer.overall;
    0
}
