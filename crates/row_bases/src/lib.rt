// The row bases and leftovers of a set under a method (01, Row bases), and questions 13 and 14.
#![tactic(auto)]

mod bases;

ghost use Rattle.std.specs.Prelude.{◌≡◌, ◌^◌, ◌≤◌, min};
ghost use Rattle.model.specs.Calls.{zeros};
ghost use Rattle.model.specs.Lent.{triangle_in, lent_set};
ghost use Rattle.model.specs.declared.TriangleSet.{TriangleSet};
ghost use Rattle.ladder.specs.Sums.{Small};
ghost use Rattle.ladder.specs.Ladder.{Ladder};
ghost use Rattle.refusals.specs.Refusals.{refusal_number};
ghost use Rattle.row_bases.specs.Bases.{number};
ghost use Rattle.row_bases.specs.Method.{Asked, Under, Based};

use bases::row_bases;
use ladder::ChainLadder;
use refusals::Refusal;

// A method (01, Row bases).
#[derive(Clone, Copy)]
enum Method {
    Dcl,
    Bdcl,
    Idcl,
}

// By the number of a call, which question 6 keeps at most 2.
impl From<u64> for Method {
    ghost from_gives = { λ n m. number m ≡ min n 2 };

    fn from(n: u64) -> Method {
        match n {
            0 => Method::Dcl,
            1 => Method::Bdcl,
            _ => Method::Idcl,
        }
    }
}

// The ultimates of incurred, where question 13 gets a yes; zeros where the method does not use
// them.
fn incurred_under(set: &[i64; 1200], m: usize, method: Method) -> Option<[i64; 20]>
    requires { (1 ≤ m) × ((number method ≡ 0 → ⊥) → Small m (10 ^ 10) (triangle_in 2 set.now)) }
    ensures { Under m (triangle_in 2 set.now) (number method) result }
{
    match method {
        Method::Dcl => Some([0i64; 20]),
        Method::Bdcl | Method::Idcl => chain_ladder::incurred_ultimates(set, m),
    }
}

// Questions 13 and 14, and the row bases and leftovers of a set, V(i) and the leftover of year i at
// place i - 1, from the chain ladder of its paid triangle. A refusal leaves the leftovers as they
// were.
pub fn method_bases(
    set: &[i64; 1200],
    m: usize,
    method: u64,
    paid: &ChainLadder,
    v: &mut [i64; 20],
    leftovers: &mut [i64; 20],
) -> Result<(), Refusal>
    requires asked { Asked m (triangle_in 0 set.now) (triangle_in 1 set.now) (triangle_in 2 set.now) method }
    requires ladder { Ladder m (triangle_in 1 set.now) paid.now.latest paid.now.g × (v.old ≡ zeros 20) }
    ensures { (like : TriangleSet) → Based m (lent_set like set.now) method (refusal_number result) v.new leftovers.old leftovers.new }
{
    let method = Method::from(method);
    let w = incurred_under(set, m, method).ok_or(Refusal::Incurred)?;
    let u = paid.ultimates(m);
    *v = row_bases(m, method, &u, &paid.latest, &w).ok_or(Refusal::RowBases)?;
    *leftovers = bases::leftovers(m, method, &u, &paid.latest, &w);
    Ok(())
}
