// The triangular system of a set's delays (01, Delays): its solution and question 12; delays that
// are given (02, Job 6), held against each line, and question 20.
#![tactic(auto)]

ghost use Rattle.std.specs.Prelude.{◌≡◌, ◌*◌, ◌^◌, ◌≤◌, nat_abs, ◌*ℤ◌, ◌-ℤ◌};
ghost use Rattle.model.specs.Lists.{at};
ghost use Rattle.model.specs.Rounding.{S};
ghost use Rattle.model.specs.Delays.{delay_after, solves_at};
ghost use Rattle.solver.specs.Solved.{Weighed, Next, Solvable, weighed_sum, held, solved_of, checked_of};

// The bound of a delay, on either side of zero.
const BOUND: i64 = 8000000000;

// The sum of b(k) × p(l-k) for k = first to l.
fn weighed_sum(b: &[i64; 20], p: &[i64; 20], first: usize, l: usize) -> i64
    requires { Weighed first l b.now p.now }
    ensures { result ≡ weighed_sum b.now p.now first l }
{
    let mut out = 0i64;
    for k in first..=l {
        out += b[k] * p[l - k];
    }
    out
}

// S × q(l) less that sum.
fn residual(b: &[i64; 20], q: &[i64; 20], p: &[i64; 20], first: usize, l: usize) -> i64
    requires { Next first l b.now q.now p.now }
    ensures { (result ≡ S *ℤ at q.now l -ℤ weighed_sum b.now p.now first l) × (nat_abs result ≤ 9 * 10 ^ 18) }
{
    rounding::SCALE * q[l] - weighed_sum(b, p, first, l)
}

// p(l), from the delays before it.
fn delay(b: &[i64; 20], q: &[i64; 20], p: &[i64; 20], l: usize) -> i64
    requires { Next 1 l b.now q.now p.now }
    ensures { result ≡ delay_after b.now q.now p.now l }
{
    rounding::round_div(residual(b, q, p, 1, l), b[0])
}

// Whether the delays solve line l of the system. Twice the distance passes a signed word, but no
// unsigned one.
fn solves_at(b: &[i64; 20], q: &[i64; 20], p: &[i64; 20], l: usize) -> bool
    requires { Next 0 l b.now q.now p.now }
    ensures { result ≡ solves_at b.now q.now p.now l }
{
    let distance = rounding::magnitude(residual(b, q, p, 0, l));
    2 * distance <= rounding::magnitude(b[0])
}

// Whether a delay is within question 12's range.
fn in_range(x: i64) -> bool
    ensures { result ≡ held x }
{
    (-BOUND..=BOUND).contains(&x)
}

// All m delays, p(l) at place l, from the shares b of counts and q of paid, where question 12 gets
// a yes. It stops at the first that is outside its range.
pub fn solve(m: usize, b: &[i64; 20], q: &[i64; 20]) -> Option<[i64; 20]>
    requires { Solvable m b.now q.now }
    ensures { result ≡ solved_of m b.now q.now }
{
    let mut p = [0i64; 20];
    for l in 0..m {
        let x = delay(b, q, &p, l);
        if !in_range(x) {
            return None;
        }
        p[l] = x;
    }
    Some(p)
}

// The lent delays, where question 20 gets a yes. Each is held against its range before it is
// multiplied: any numbers may be lent.
pub fn checked(m: usize, b: &[i64; 20], q: &[i64; 20], lent: &[i64]) -> Option<[i64; 20]>
    requires { Solvable m b.now q.now }
    ensures { result ≡ checked_of m b.now q.now lent.now }
{
    if lent.len() != m {
        return None;
    }
    let mut p = [0i64; 20];
    for l in 0..m {
        let y = lent[l];
        if !in_range(y) {
            return None;
        }
        p[l] = y;
        if !solves_at(b, q, &p, l) {
            return None;
        }
    }
    Some(p)
}
