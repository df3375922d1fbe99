// Sums of a triangle of m years: of its rows, and of its columns up to each delay.
ghost use Rattle.std.specs.Prelude.{◌≡◌, ◌^◌, ◌<◌};
ghost use Rattle.model.specs.Calls.{zeros};
ghost use Rattle.model.specs.Lent.{triangle_in};
ghost use Rattle.ladder.specs.Sums.{Small, latests, a_sums, b_sums};

use arithmetic::spaced_sum;

// C(i,m-i) at place i - 1: the sum of row i's known cells.
fn latest_sums(set: &[i64; 1200], kind: usize, m: usize, latest: &mut [i64; 20])
    requires { (kind < 3) × Small m (10 ^ 10) (triangle_in kind set.now) × (latest.old ≡ zeros 20) }
    ensures { latest.new ≡ latests m (triangle_in kind set.now) }
{
    for k in 0..m {
        latest[k] = spaced_sum(set, 400 * kind + 20 * k, 1, m - k);
    }
}

// The sums of the triangle of a kind: C(i,m-i) at place i - 1, A(j) and B(j) at place j - 1. A(j)
// is B(j-1) less its last row's sum, B(j) is A(j) and column j. The kind is a number, since it is a
// place in the list, as in `triangle_in kind`.
pub fn sums(
    set: &[i64; 1200],
    kind: usize,
    m: usize,
    latest: &mut [i64; 20],
    a: &mut [i64; 20],
    b: &mut [i64; 20],
)
    requires kind_bound { (kind < 3) × Small m (10 ^ 10) (triangle_in kind set.now) }
    requires latest_value { (latest.old ≡ zeros 20) × (a.old ≡ zeros 20) × (b.old ≡ zeros 20) }
    ensures latest_after { latest.new ≡ latests m (triangle_in kind set.now) }
    ensures a_after { a.new ≡ a_sums m (triangle_in kind set.now) }
    ensures b_after { b.new ≡ b_sums m (triangle_in kind set.now) }
{
    latest_sums(set, kind, m, latest);
    let mut whole = spaced_sum(set, 400 * kind, 20, m);
    for j in 1..m {
        let part = whole - latest[m - j];
        a[j - 1] = part;
        whole = part + spaced_sum(set, 400 * kind + j, 20, m - j);
        b[j - 1] = whole;
    }
}
