// The delays of a set (01, Delays) and of a file, solved or given (02, Job 6), and all that the
// methods share.
#![tactic(auto)]

ghost use Rattle.std.specs.Prelude.{◌≡◌, ◌^◌};
ghost use Rattle.std.specs.Option.{option_copied, option_map_or};
ghost use Rattle.model.specs.Calls.{if_accepted, zeros, delays_answer, check_delays_answer};
ghost use Rattle.model.specs.Lent.{triangle_in};
ghost use Rattle.chain_ladder.specs.Valid.{Amounts};
ghost use Rattle.solver.specs.Solved.{Solvable, solved_of, checked_of};
ghost use Rattle.refusals.specs.Refusals.{number, refusal_number};
ghost use Rattle.delays.specs.Prepared.{Prepared, PreparedFrom, ReadDelays};

use ladder::ChainLadder;
use refusals::{Refusal, refusal_number};
use solver::{checked, solve};

// The delays from either side: the lent ones where some are given, else those solved here.
fn from_either(m: usize, b: &[i64; 20], q: &[i64; 20], given: Option<&[i64]>) -> Option<[i64; 20]>
    requires { Solvable m b.now q.now }
    ensures { result ≡ option_map_or (checked_of m b.now q.now) (option_copied given.entry) (solved_of m b.now q.now) }
{
    match given {
        Some(lent) => checked(m, b, q, lent),
        None => solve(m, b, q),
    }
}

// The question that delays from that side are asked.
fn question(given: Option<&[i64]>) -> Refusal
    ensures { number result ≡ option_map_or (λ lent. 20) (option_copied given.entry) 12 }
{
    match given {
        Some(_) => Refusal::GivenDelays,
        None => Refusal::SolvedDelays,
    }
}

// What a set's cells need that no method changes: questions 9 to 11, and 20 of the lent delays
// where some are given, else 12 of those solved here; the chain ladders of counts and of paid; and
// the delays, p(l) at place l, which a refusal leaves as they were.
pub fn prepare_from(
    set: &[i64; 1200],
    m: usize,
    given: Option<&[i64]>,
    counts: &mut ChainLadder,
    paid: &mut ChainLadder,
    p: &mut [i64; 20],
) -> Result<(), Refusal>
    requires amounts { Amounts m (10 ^ 7) (triangle_in 0 set.now) × Amounts m (10 ^ 10) (triangle_in 1 set.now) }
    requires counts_value { (counts.old.latest ≡ zeros 20) × (counts.old.g ≡ zeros 20) }
    requires paid_value { (paid.old.latest ≡ zeros 20) × (paid.old.g ≡ zeros 20) }
    ensures { PreparedFrom m set.now (option_copied given.entry) (refusal_number result) counts.new.latest counts.new.g paid.new.latest paid.new.g p.old p.new }
{
    chain_ladder::develop(set, m, counts, paid)?;
    let b = counts.shares(m);
    let q = paid.shares(m);
    *p = from_either(m, &b, &q, given).ok_or(question(given))?;
    Ok(())
}

// The same with the delays solved here: questions 9 to 12.
pub fn prepare(
    set: &[i64; 1200],
    m: usize,
    counts: &mut ChainLadder,
    paid: &mut ChainLadder,
    p: &mut [i64; 20],
) -> Result<(), Refusal>
    requires amounts { Amounts m (10 ^ 7) (triangle_in 0 set.now) × Amounts m (10 ^ 10) (triangle_in 1 set.now) }
    requires counts_value { (counts.old.latest ≡ zeros 20) × (counts.old.g ≡ zeros 20) }
    requires paid_value { (paid.old.latest ≡ zeros 20) × (paid.old.g ≡ zeros 20) }
    ensures { Prepared m set.now (refusal_number result) counts.new.latest counts.new.g paid.new.latest paid.new.g p.old p.new }
{
    prepare_from(set, m, None, counts, paid, p)
}

// The delays of a file from either side, written into a lent list: questions 1 to 5, 9 to 11, and
// 20 or 12. A refusal leaves the list as it was.
fn file_delays(
    file: &[u8],
    m: usize,
    given: Option<&[i64]>,
    p: &mut [i64; 20],
) -> Result<(), Refusal>
    ensures { ReadDelays m file.now (option_copied given.entry) (refusal_number result) p.old p.new }
{
    let mut set = [0i64; 1200];
    triangles::read_cells(file, m, &mut set)?;
    let mut counts = ChainLadder {
        latest: [0; 20],
        g: [0; 20],
    };
    let mut paid = counts;
    prepare_from(&set, m, given, &mut counts, &mut paid, p)
}

// The delays of a file, written into a lent list: questions 1 to 5 and 9 to 12. A refusal leaves
// the list as it was.
pub fn delays_into(file: &[u8], m: usize, p: &mut [i64; 20]) -> Result<(), Refusal>
    ensures value { refusal_number result ≡ (delays_answer m file.now).refusal }
    ensures p_after { p.new ≡ if_accepted (refusal_number result) (delays_answer m file.now).p p.old }
{
    file_delays(file, m, None, p)
}

// The delays of a file: questions 1 to 5 and 9 to 12.
pub fn delays(file: &[u8], m: usize) -> model::DelaysAnswer
    ensures { result ≡ delays_answer m file.now }
{
    let mut p = [0i64; 20];
    let answer = delays_into(file, m, &mut p);
    let refusal = refusal_number(answer);
    let mut line = 0;
    triangles::store_line(file, refusal, &mut line);
    model::DelaysAnswer { refusal, line, p }
}

// Whether lent delays, in billionths, fit a file: questions 1 to 5, 9 to 11 and 20.
pub fn check_delays(file: &[u8], m: usize, delays: &[i64]) -> model::CheckDelaysAnswer
    ensures { result ≡ check_delays_answer m file.now delays.now }
{
    let mut p = [0i64; 20];
    let answer = file_delays(file, m, Some(delays), &mut p);
    let refusal = refusal_number(answer);
    let mut line = 0;
    triangles::store_line(file, refusal, &mut line);
    model::CheckDelaysAnswer { refusal, line }
}
