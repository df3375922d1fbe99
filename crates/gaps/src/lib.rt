// The gaps of a back-test (01, Back-test): forecast less paid, of each cell that is compared; and
// their sums. They serve any number of later years: with n + 1 in the place of m the gaps are those
// of the one year after a set of size n.
#![tactic(auto)]

pub mod errors;

ghost use Rattle.std.specs.Prelude.{◌≡◌, ℕ, ◌+◌, ◌-◌, ◌*◌, ◌<◌, ℤ, pos};
ghost use Rattle.model.specs.Lists.{listed};
ghost use Rattle.model.specs.Calls.{zeros};
ghost use Rattle.model.specs.Lent.{triangle_in};
ghost use Rattle.cells.specs.CellOf.{OfYear, year_cell};
ghost use Rattle.years.specs.Ready.{Ready};
ghost use Rattle.gaps.specs.Gaps.{Sizes, gap_from, cell_from, gaps};

use cells::{Basis, YearParts};
use ladder::ChainLadder;
use years::weights::weights;
use years::{one_more_delay, whole_sums};

// The gaps of a year's cells that are compared, cell (i,j) at 20 × (i-1) + j, behind those of the
// years before it, from the year's parts in the set of size n.
fn row_gaps(d: &mut [i64; 400], set: &[i64; 1200], m: usize, year: &YearParts)
    requires { Sizes m year.now.m (triangle_in 1 set.now) × OfYear year.now }
    ensures { (f : ℕ → ℤ) → d.old ≡ listed 400 (20 * (year.now.i - 1)) f (pos 0)
        → ((j : ℕ) → j < 20 → f (20 * (year.now.i - 1) + j) ≡ gap_from m year.now.m (year_cell year.now j) (triangle_in 1 set.now) year.now.i j)
        → d.new ≡ listed 400 (20 * year.now.i) f (pos 0) }
{
    let n = year.m;
    let i = year.i;
    for j in n + 1 - i..n.min(m + 1 - i) {
        let cell = year.open_cell(j);
        d[20 * (i - 1) + j] = cell.rbns + cell.ibnr - set[400 + 20 * (i - 1) + j];
    }
}

// The gap of every cell, cell (i,j) at 20 × (i-1) + j, 0 where it is not compared, into a list of
// zeros. The forecast is that of the set cut to size n: its first n years and delays; v holds the
// row bases, p the delays, and shares are those of counts. The loop takes the steps of
// years::cell_forecast: shared by a closure that writes, they would leave the proof no facts.
pub fn gaps(
    d: &mut [i64; 400],
    set: &[i64; 1200],
    m: usize,
    n: usize,
    basis: u64,
    shares: &[i64; 20],
    counts: &ChainLadder,
    v: &[i64; 20],
    p: &[i64; 20],
)
    requires { Sizes m n (triangle_in 1 set.now) × Ready n (triangle_in 0 set.now) shares.now counts.now.g counts.now.latest v.now p.now × (d.old ≡ zeros 400) }
    ensures { d.new ≡ gaps m n (cell_from n (triangle_in 0 set.now) basis shares.now counts.now.g counts.now.latest v.now p.now) (triangle_in 1 set.now) }
{
    let basis = Basis::from(basis);
    let mut whole = [0i64; 39];
    if let Basis::Estimated = basis {
        whole_sums(&mut whole, shares, p, n);
    }
    let mut unreported = [0i64; 39];
    let mut s = *shares;
    for k in 0..n {
        weights(&mut s, set, n, k + 1, basis, counts);
        let year = YearParts {
            m: n,
            i: k + 1,
            v: v[k],
            basis,
            whole: &whole,
            unreported: &unreported,
            s: &s,
            p,
        };
        row_gaps(d, set, m, &year);
        one_more_delay(&mut unreported, shares, p, n, n - 1 - k);
    }
}
