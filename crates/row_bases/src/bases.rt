// The row base and the leftover of each year, from the years' ultimates and latest sums.
ghost use Rattle.std.specs.Prelude.{◌≡◌, ◌*◌, ◌^◌, ◌≤◌, pos};
ghost use Rattle.arithmetic.specs.Capped.{capped};
ghost use Rattle.model.specs.Lists.{listed};
ghost use Rattle.row_bases.specs.Bases.{number, base_from, left_from, left_at, Year, Sizes, AllSizes, Bases};

use crate::Method;

// Question 14's limit.
const LIMIT: u64 = 200000000000000;

// The row base of a year, unless it leaves question 14's range. u and w are its ultimates of paid
// and incurred, c its latest paid sum, u1 and w1 the ultimates of year 1.
fn row_base(method: Method, u1: i64, w1: i64, u: i64, w: i64, c: i64) -> Option<i64>
    requires { Sizes (number method) u1 w1 u w c }
    ensures { result ≡ capped (2 * 10 ^ 14) (base_from (number method) u1 w1 u w c) }
{
    match method {
        Method::Dcl => Some(u),
        Method::Bdcl => arithmetic::mul_div_capped(u1, w, w1, LIMIT),
        Method::Idcl if u == c => Some(u),
        Method::Idcl => arithmetic::mul_div_capped(u, w - c, u - c, LIMIT),
    }
}

// The leftover of a year.
fn leftover(method: Method, u: i64, w: i64, c: i64) -> i64
    requires { Year (number method) u w c }
    ensures { result ≡ left_from (number method) u w c }
{
    match method {
        Method::Dcl | Method::Bdcl => 0,
        Method::Idcl if u == c => w - c,
        Method::Idcl => 0,
    }
}

// The row bases of years 1 to m, year i at place i - 1, where each is within question 14's range,
// from the ultimates u of paid and w of incurred and the latest paid sums c. It stops at the first
// that is not.
pub fn row_bases(
    m: usize,
    method: Method,
    u: &[i64; 20],
    c: &[i64; 20],
    w: &[i64; 20],
) -> Option<[i64; 20]>
    requires { (1 ≤ m) × (m ≤ 20) × AllSizes m (number method) u.now c.now w.now }
    ensures { Bases m (number method) u.now c.now w.now result }
{
    let mut v = [0i64; 20];
    for k in 0..m {
        v[k] = row_base(method, u[0], w[0], u[k], w[k], c[k])?;
    }
    Some(v)
}

// The leftovers of years 1 to m, year i at place i - 1.
pub fn leftovers(m: usize, method: Method, u: &[i64; 20], c: &[i64; 20], w: &[i64; 20]) -> [i64; 20]
    requires { (m ≤ 20) × AllSizes m (number method) u.now c.now w.now }
    ensures { result ≡ listed 20 m (left_at m (number method) u.now c.now w.now) (pos 0) }
{
    let mut out = [0i64; 20];
    for k in 0..m {
        out[k] = leftover(method, u[k], w[k], c[k]);
    }
    out
}
