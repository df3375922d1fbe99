// The weights s(k) of the reported claims (01, Cell forecasts).

ghost use Rattle.std.specs.Prelude.{◌≡◌, ◌+◌, ◌-◌, pos};
ghost use Rattle.model.specs.Lists.{at, listed};
ghost use Rattle.model.specs.Lent.{triangle_in};
ghost use Rattle.cells.specs.CellOf.{number};
ghost use Rattle.cells.specs.Weights.{Counted, actual_weight};
ghost use Rattle.years.specs.Ready.{year_weights};

use cells::Basis;
use ladder::ChainLadder;

// The weights of year i by its actual counts, into s: r(count(i,k) × g / latest) for k up to m - i.
fn actual_weights(s: &mut [i64; 20], set: &[i64; 1200], m: usize, i: usize, g: i64, latest: i64)
    requires { Counted m i (triangle_in 0 set.now) g latest }
    ensures { s.new ≡ listed 20 (m - i + 1) (actual_weight (triangle_in 0 set.now) i g latest) (pos 0) }
{
    *s = [0i64; 20];
    for k in 0..m - i + 1 {
        s[k] = rounding::round_div(set[20 * (i - 1) + k] * g, latest);
    }
}

// The weights of year i on either basis, into s, which holds the shares of counts where the counts
// are estimated.
pub fn weights(
    s: &mut [i64; 20],
    set: &[i64; 1200],
    m: usize,
    i: usize,
    basis: Basis,
    counts: &ChainLadder,
)
    requires { Counted m i (triangle_in 0 set.now) (at counts.now.g (m - i)) (at counts.now.latest (i - 1)) }
    ensures { s.new ≡ year_weights m (triangle_in 0 set.now) (number basis) s.old counts.now.g counts.now.latest i }
{
    match basis {
        Basis::Estimated => {}
        Basis::Actual => actual_weights(s, set, m, i, counts.g[m - i], counts.latest[i - 1]),
    }
}
