// The claim costs of a file (01, Claim-cost card): mu, the factors of paid, and the inflations.
#![tactic(auto)]

ghost use Rattle.std.specs.Prelude.{◌≡◌, suc, ◌^◌, ◌≤◌, T};
ghost use Rattle.std.specs.Float.Ieee.Positive.{positive};
ghost use Rattle.model.specs.Lists.{at, listed};
ghost use Rattle.model.specs.ClaimCosts.{quotient, no_float, year_inflation};
ghost use Rattle.model.specs.Calls.{refused_claim_costs, claim_costs_answer};
ghost use Rattle.model.specs.declared.Inflation.TheVariants.{NoPaymentsYet};
ghost use Rattle.model.specs.Lent.{lent_set, triangle_in};
ghost use Rattle.model.specs.declared.TriangleSet.{TriangleSet};
ghost use Rattle.chain_ladder.specs.Valid.{Amounts};
ghost use Rattle.claim_costs.specs.Costs.{Exact, AllExact, cost_at, inflation_of, costs_of_set};

use ladder::ChainLadder;
use ladder::sums::sums;
use model::{Inflation, YearInflation};

// x / y: one division of two whole numbers that binary64 holds exactly.
fn quotient(x: i64, y: i64) -> f64
    requires { Exact x y }
    ensures { result ≡ quotient x y }
{
    (x as f64) / (y as f64)
}

// The quotients of the first n places, then zeros.
fn quotients(xs: &[i64; 20], ys: &[i64; 20], n: usize) -> [f64; 20]
    requires { AllExact n xs.now ys.now }
    ensures { result ≡ listed 20 n (λ k. quotient (at xs.now k) (at ys.now k)) no_float }
{
    let mut out = [0.0; 20];
    for k in 0..n {
        let x = xs[k];
        let y = ys[k];
        out[k] = quotient(x, y);
    }
    out
}

// The inflation of year i, from its ultimate and its mean cost.
fn inflation(i: usize, ultimate: i64, cost: f64, mu: f64) -> Inflation
    requires { T (positive mu) }
    ensures { result ≡ inflation_of i ultimate cost mu }
{
    if i == 1 {
        return Inflation::BaseYear;
    }
    if ultimate == 0 {
        return Inflation::NoPaymentsYet;
    }
    Inflation::Ratio(cost / mu)
}

// The inflations of years 1 to m, from their ultimates and mean costs.
fn inflations(ultimates: &[i64; 20], costs: &[f64; 20], mu: f64, m: usize) -> [YearInflation; 20]
    requires { (m ≤ 20) × T (positive mu) }
    ensures { result ≡ listed 20 m (λ k. year_inflation (inflation_of (suc k) (at ultimates.now k) (cost_at costs.now k) mu)) (year_inflation NoPaymentsYet) }
{
    let none = YearInflation {
        value: Inflation::NoPaymentsYet,
    };
    let mut out = [none; 20];
    for k in 0..m {
        out[k] = YearInflation {
            value: inflation(k + 1, ultimates[k], costs[k], mu),
        };
    }
    out
}

// A refusal, with zeros and "no payments yet" beside it; each answer has fields of its own, so each
// has its own.
fn refused(number: u64) -> model::ClaimCostsAnswer
    ensures { result ≡ refused_claim_costs number }
{
    let none = YearInflation {
        value: Inflation::NoPaymentsYet,
    };
    model::ClaimCostsAnswer {
        refusal: number,
        line: 0,
        costs: model::ClaimCosts {
            mu: 0.0,
            factors: [0.0; 20],
            inflations: [none; 20],
        },
    }
}

// Questions 9 to 11, and the claim costs of a set on a line: the whole answer and no `Result` of it,
// since that would go by value once more.
fn claim_costs_of_set(set: &[i64; 1200], line: u64, m: usize) -> model::ClaimCostsAnswer
    requires { Amounts m (10 ^ 7) (triangle_in 0 set.now) × Amounts m (10 ^ 10) (triangle_in 1 set.now) }
    ensures { (like : TriangleSet) → line ≡ like.line → result ≡ costs_of_set m (lent_set like set.now) }
{
    let mut counts = ChainLadder {
        latest: [0; 20],
        g: [0; 20],
    };
    let mut paid = counts;
    if let Err(refusal) = chain_ladder::develop(set, m, &mut counts, &mut paid) {
        return refused(u64::from(refusal));
    }
    let n = counts.ultimates(m);
    let u = paid.ultimates(m);
    let costs = quotients(&u, &n, m);
    let mu = costs[0];
    let mut latest = [0i64; 20];
    let mut a = [0i64; 20];
    let mut b = [0i64; 20];
    sums(set, 1, m, &mut latest, &mut a, &mut b);
    let factors = quotients(&b, &a, m - 1);
    model::ClaimCostsAnswer {
        refusal: 0,
        line,
        costs: model::ClaimCosts {
            mu,
            factors,
            inflations: inflations(&u, &costs, mu, m),
        },
    }
}

// The claim costs of a file: questions 1 to 5 and 9 to 11.
pub fn claim_costs(file: &[u8], m: usize) -> model::ClaimCostsAnswer
    ensures { result ≡ claim_costs_answer m file.now }
{
    let mut set = [0i64; 1200];
    if let Err(refusal) = triangles::read_cells(file, m, &mut set) {
        return refused(u64::from(refusal));
    }
    claim_costs_of_set(&set, triangles::line(file), m)
}
