// The chain ladder from a triangle's sums: cumulative shares, shares and ultimates (01, Shares).
#![tactic(auto)]

pub mod sums;

ghost use Rattle.std.specs.Prelude.{◌≡◌, ◌*◌, ◌^◌, ◌≤◌, pos, nat_abs, ◌*ℤ◌};
ghost use Rattle.integers.specs.Parts.{◌⋖◌};
ghost use Rattle.model.specs.Rounding.{r};
ghost use Rattle.model.specs.Lists.{listed};
ghost use Rattle.ladder.specs.Ladder.{Steps, InBounds, Ready, share_in, g_of, Bounded, difference, grown};

// The least cumulative share that is in bounds.
const LEAST: i64 = 1000000;

// The largest one.
const MOST: u64 = 4000000000;

// The share of the delay before, r(g × a / b), where it is in bounds.
fn next_share(g: i64, a: i64, b: i64) -> Option<i64>
    requires { (nat_abs g ≤ 4 * 10 ^ 9) × (nat_abs a ≤ 4 * 10 ^ 12) × (pos 0 ⋖ b) × (nat_abs b ≤ 4 * 10 ^ 12) }
    ensures { result ≡ share_in (r (g *ℤ a) b) }
{
    let v = arithmetic::mul_div_capped(g, a, b, MOST)?;
    if v < LEAST {
        return None;
    }
    Some(v)
}

// The cumulative shares of a triangle, g(j) at place j, from g(m-1) down, where each is in bounds.
// It stops at the first that is not.
pub fn cumulative_shares<'a>(a: &'a [i64; 20], b: &'a [i64; 20], m: usize) -> Option<[i64; 20]>
    requires { Steps m a.now b.now }
    ensures { Bounded m (g_of m a.now b.now) result }
{
    let mut g = [0i64; 20];
    g[m - 1] = rounding::SCALE;
    for j in (0..m - 1).rev() {
        g[j] = next_share(g[j + 1], a[j], b[j])?;
    }
    Some(g)
}

// The chain ladder of a triangle: the sum of each row's known cells, C(i,m-i) at place i - 1, and
// the cumulative shares, g(j) at place j.
#[derive(Clone, Copy)]
pub struct ChainLadder {
    pub latest: [i64; 20],
    pub g: [i64; 20],
}

impl ChainLadder {
    // The shares.
    pub fn shares(&self, m: usize) -> [i64; 20]
        requires { InBounds m self.now.g }
        ensures { result ≡ listed 20 m (difference self.now.g) (pos 0) }
    {
        let mut out = [0i64; 20];
        out[0] = self.g[0];
        for k in 1..m {
            out[k] = self.g[k] - self.g[k - 1];
        }
        out
    }

    // The ultimates.
    pub fn ultimates(&self, m: usize) -> [i64; 20]
        requires { Ready m self.now.latest self.now.g }
        ensures { result ≡ listed 20 m (grown m self.now.latest self.now.g) (pos 0) }
    {
        let mut out = [0i64; 20];
        for k in 0..m {
            out[k] = arithmetic::mul_div(self.latest[k], rounding::SCALE, self.g[m - 1 - k]);
        }
        out
    }
}
