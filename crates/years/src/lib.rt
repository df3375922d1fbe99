// The cells of all years (01, Cell forecasts), written one year after the other, by the weights of
// each year's reported claims.
#![tactic(auto)]

pub mod weights;

ghost use Rattle.std.specs.Prelude.{◌≡◌, ◌+◌, ◌*◌, ◌≤◌, ◌<◌, pos, length, replicate};
ghost use Rattle.model.specs.Overlay.{overlay};
ghost use Rattle.model.specs.Cells.{size};
ghost use Rattle.model.specs.Lent.{triangle_in};
ghost use Rattle.cells.specs.Weights.{Weights, Delays};
ghost use Rattle.cells.specs.CellOf.{sums_from, years_entries};
ghost use Rattle.years.specs.Ready.{Ready, year_weights};

use cells::{Basis, YearParts};
use ladder::ChainLadder;
use weights::weights;

// From the sums of b(k) × p(j-k) over the reporting delays after k, for each j, those over the
// delays from k on.
pub fn one_more_delay(sums: &mut [i64; 39], b: &[i64; 20], p: &[i64; 20], m: usize, k: usize)
    requires k_lt_m { (k < m) × (m ≤ 20) × (sums.old ≡ sums_from m (k + 1) b.now p.now) }
    requires weights { Weights b.now × Delays p.now }
    ensures { sums.new ≡ sums_from m k b.now p.now }
{
    let share = b[k];
    for l in 0..m {
        sums[k + l] += share * p[l];
    }
}

// The sums over all reporting delays, from a list of zeros.
pub fn whole_sums(sums: &mut [i64; 39], b: &[i64; 20], p: &[i64; 20], m: usize)
    requires m_bound { (m ≤ 20) × (sums.old ≡ replicate 39 (pos 0)) }
    requires weights { Weights b.now × Delays p.now }
    ensures { sums.new ≡ sums_from m 0 b.now p.now }
{
    for k in (0..m).rev() {
        one_more_delay(sums, b, p, m, k);
    }
}

// The cell forecast of years 1 to m, at the front of the output: v holds the row bases, p the
// delays, and shares are those of counts. A year leaves one reporting delay fewer to the reported
// claims than the year before it. `basis` is the number of the calls, any one; the loop is `gaps`'
// too, which says why it is not shared.
pub fn cell_forecast(
    out: &mut [i64],
    m: usize,
    basis: u64,
    set: &[i64; 1200],
    shares: &[i64; 20],
    counts: &ChainLadder,
    v: &[i64; 20],
    p: [i64; 20],
)
    requires ready { Ready m (triangle_in 0 set.now) shares.now counts.now.g counts.now.latest v.now p }
    requires m_in_bounds { size m ≤ length out.old }
    ensures { out.new ≡ overlay out.old 0 (years_entries m v.now (year_weights m (triangle_in 0 set.now) basis shares.now counts.now.g counts.now.latest) shares.now p m) }
{
    let basis = Basis::from(basis);
    let mut whole = [0i64; 39];
    if let Basis::Estimated = basis {
        whole_sums(&mut whole, shares, &p, m);
    }
    let mut unreported = [0i64; 39];
    let mut s = *shares;
    for n in 0..m {
        weights(&mut s, set, m, n + 1, basis, counts);
        let year = YearParts {
            m,
            i: n + 1,
            v: v[n],
            basis,
            whole: &whole,
            unreported: &unreported,
            s: &s,
            p: &p,
        };
        year.write(out, n * (2 * (2 * m - 1)));
        one_more_delay(&mut unreported, shares, &p, m, m - 1 - n);
    }
}
