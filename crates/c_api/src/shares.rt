// Shares, ultimates, delays, and delays that are given.
ghost use Rattle.std.specs.Prelude.{◌≡◌};
ghost use Rattle.model.specs.Calls.{if_accepted, shares_answer, delays_answer, check_delays_answer};

use refusals::refusal_number;

// Shares and ultimates: b and N of counts; q, g and U of paid. Delay j stands at place j, year i at
// place i - 1.
#[unsafe(no_mangle)]
#[tactic(auto, using(chain_ladder::specs::SharesCall::shares_line))]
pub extern "C" fn pardesul_shares(
    file: &[u8],
    m: usize,
    line: &mut u64,
    b: &mut [i64; 20],
    n: &mut [i64; 20],
    q: &mut [i64; 20],
    g: &mut [i64; 20],
    u: &mut [i64; 20],
) -> u64
    ensures value { result ≡ (shares_answer m file.now).refusal }
    ensures line_after { line.new ≡ if_accepted result (shares_answer m file.now).line line.old }
    ensures b_after { b.new ≡ if_accepted result (shares_answer m file.now).b b.old }
    ensures n_after { n.new ≡ if_accepted result (shares_answer m file.now).n n.old }
    ensures q_after { q.new ≡ if_accepted result (shares_answer m file.now).q q.old }
    ensures g_after { g.new ≡ if_accepted result (shares_answer m file.now).g g.old }
    ensures u_after { u.new ≡ if_accepted result (shares_answer m file.now).u u.old }
{
    let answer = chain_ladder::shares_into(file, m, b, n, q, g, u);
    let refusal = refusal_number(answer);
    triangles::store_line(file, refusal, line);
    refusal
}

// The delays, p(l) at place l.
#[unsafe(no_mangle)]
#[tactic(auto, using(delays::specs::PreparedLaws::delays_line))]
pub extern "C" fn pardesul_delays(file: &[u8], m: usize, line: &mut u64, p: &mut [i64; 20]) -> u64
    ensures value { result ≡ (delays_answer m file.now).refusal }
    ensures line_after { line.new ≡ if_accepted result (delays_answer m file.now).line line.old }
    ensures p_after { p.new ≡ if_accepted result (delays_answer m file.now).p p.old }
{
    let answer = delays::delays_into(file, m, p);
    let refusal = refusal_number(answer);
    triangles::store_line(file, refusal, line);
    refusal
}

// Whether given delays fit the file.
#[unsafe(no_mangle)]
pub extern "C" fn pardesul_check_delays(
    file: &[u8],
    m: usize,
    delays: &[i64],
    line: &mut u64,
) -> u64
    ensures value { result ≡ (check_delays_answer m file.now delays.now).refusal }
    ensures line_after { line.new ≡ if_accepted result (check_delays_answer m file.now delays.now).line line.old }
{
    let answer = delays::check_delays(file, m, delays);
    let refusal = answer.refusal;
    if refusal != 0 {
        return refusal;
    }
    *line = answer.line;
    0
}
