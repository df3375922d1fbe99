// The chain ladder of a set (01, Shares): shares and ultimates of a file, and the questions 9 to 11
// and 13.
#![tactic(auto)]

ghost use Rattle.std.specs.Prelude.{◌≡◌, ◌^◌, ◌≤◌};
ghost use Rattle.std.specs.Int.Signed.{le_z};
ghost use Rattle.model.specs.Lists.{at, every};
ghost use Rattle.model.specs.Calls.{if_accepted, zeros, shares_answer};
ghost use Rattle.model.specs.Lent.{triangle_in};
ghost use Rattle.chain_ladder.specs.Valid.{Amounts};
ghost use Rattle.ladder.specs.Sums.{Small};
ghost use Rattle.refusals.specs.Refusals.{refusal_number};
ghost use Rattle.chain_ladder.specs.Developed.{Developed, IncurredOf};

use ladder::ChainLadder;
use ladder::sums::sums;
use refusals::{Refusal, refusal_number};

// Whether each of the first n numbers is at least `least`.
fn at_least(xs: &[i64; 20], n: usize, least: i64) -> bool
    requires { n ≤ 20 }
    ensures { result ≡ every n (λ k. le_z least (at xs.now k)) }
{
    xs[..n].iter().all(|x| *x >= least)
}

// Questions 9 to 11, and the chain ladders of counts and of paid. Neither's g rises above S or
// falls with the delay: all are in bounds where g(0) is.
pub fn develop(
    set: &[i64; 1200],
    m: usize,
    counts: &mut ChainLadder,
    paid: &mut ChainLadder,
) -> Result<(), Refusal>
    requires amounts { Amounts m (10 ^ 7) (triangle_in 0 set.now) × Amounts m (10 ^ 10) (triangle_in 1 set.now) }
    requires counts_value { (counts.old.latest ≡ zeros 20) × (counts.old.g ≡ zeros 20) }
    requires paid_value { (paid.old.latest ≡ zeros 20) × (paid.old.g ≡ zeros 20) }
    ensures { Developed m set.now (refusal_number result) counts.new.latest counts.new.g paid.new.latest paid.new.g }
{
    let mut count_a = [0i64; 20];
    let mut count_b = [0i64; 20];
    sums(set, 0, m, &mut counts.latest, &mut count_a, &mut count_b);
    if !at_least(&counts.latest, m, 1) {
        return Err(Refusal::CountSums);
    }
    let mut paid_a = [0i64; 20];
    let mut paid_b = [0i64; 20];
    sums(set, 1, m, &mut paid.latest, &mut paid_a, &mut paid_b);
    if !at_least(&paid_b, m - 1, 1) {
        return Err(Refusal::PaidSums);
    }
    counts.g = ladder::cumulative_shares(&count_a, &count_b, m).ok_or(Refusal::Shares)?;
    paid.g = ladder::cumulative_shares(&paid_a, &paid_b, m).ok_or(Refusal::Shares)?;
    Ok(())
}

// The ultimates of incurred, W(i) at place i - 1, where question 13 gets a yes.
pub fn incurred_ultimates(set: &[i64; 1200], m: usize) -> Option<[i64; 20]>
    requires { (1 ≤ m) × Small m (10 ^ 10) (triangle_in 2 set.now) }
    ensures { IncurredOf m (triangle_in 2 set.now) result }
{
    let mut latest = [0i64; 20];
    let mut a = [0i64; 20];
    let mut b = [0i64; 20];
    sums(set, 2, m, &mut latest, &mut a, &mut b);
    if !at_least(&a, m - 1, 1) {
        return None;
    }
    if !at_least(&b, m - 1, 1) {
        return None;
    }
    if !at_least(&latest, m, 0) {
        return None;
    }
    let g = ladder::cumulative_shares(&a, &b, m)?;
    Some(ChainLadder { latest, g }.ultimates(m))
}

// The shares and ultimates of a file, written into lent lists: questions 1 to 5 and 9 to 11. A
// refusal leaves the lists as they were. They are five, since C lends five.
pub fn shares_into(
    file: &[u8],
    m: usize,
    b: &mut [i64; 20],
    n: &mut [i64; 20],
    q: &mut [i64; 20],
    g: &mut [i64; 20],
    u: &mut [i64; 20],
) -> Result<(), Refusal>
    ensures value { refusal_number result ≡ (shares_answer m file.now).refusal }
    ensures b_after { b.new ≡ if_accepted (refusal_number result) (shares_answer m file.now).b b.old }
    ensures n_after { n.new ≡ if_accepted (refusal_number result) (shares_answer m file.now).n n.old }
    ensures q_after { q.new ≡ if_accepted (refusal_number result) (shares_answer m file.now).q q.old }
    ensures g_after { g.new ≡ if_accepted (refusal_number result) (shares_answer m file.now).g g.old }
    ensures u_after { u.new ≡ if_accepted (refusal_number result) (shares_answer m file.now).u u.old }
{
    let mut set = [0i64; 1200];
    triangles::read_cells(file, m, &mut set)?;
    let mut counts = ChainLadder {
        latest: [0; 20],
        g: [0; 20],
    };
    let mut paid = counts;
    develop(&set, m, &mut counts, &mut paid)?;
    *b = counts.shares(m);
    *n = counts.ultimates(m);
    *q = paid.shares(m);
    *g = paid.g;
    *u = paid.ultimates(m);
    Ok(())
}

// The shares and ultimates of a file: questions 1 to 5 and 9 to 11.
pub fn shares(file: &[u8], m: usize) -> model::SharesAnswer
    ensures { result ≡ shares_answer m file.now }
{
    let mut b = [0i64; 20];
    let mut n = [0i64; 20];
    let mut q = [0i64; 20];
    let mut g = [0i64; 20];
    let mut u = [0i64; 20];
    let answer = shares_into(file, m, &mut b, &mut n, &mut q, &mut g, &mut u);
    let refusal = refusal_number(answer);
    let mut line = 0;
    triangles::store_line(file, refusal, &mut line);
    model::SharesAnswer {
        refusal,
        line,
        b,
        n,
        q,
        g,
        u,
    }
}
