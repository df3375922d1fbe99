// The calendar-year tally of a forecast's output.
#![tactic(auto)]

ghost use Rattle.std.specs.Prelude.{◌≡◌, ◌+◌, ◌-◌, ◌*◌, ◌≤◌, ◌<◌, length};
ghost use Rattle.integers.specs.Sums.{sum};
ghost use Rattle.model.specs.Cells.{size};
ghost use Rattle.model.specs.Calendar.{tally_of};
ghost use Rattle.tally.specs.YearSums.{Small};
ghost use Rattle.tally.specs.YearRows.{yearly};

use arithmetic::spaced_sum;
use year_tally::Tally;

// The sum of calendar year k + 1, of the RBNS entries (kind 0, a place in the pair) or the IBNR
// entries (kind 1). Its cells stand one in each row from its first on, each a delay earlier than in
// the row above.
fn year_sum(out: &[i64], m: usize, k: usize, kind: usize) -> i64
    requires m_bound { (m ≤ 20) × (size m ≤ length out.now) × Small m out.now }
    requires k_bound { (k < 2 * m - 2) × (kind ≤ 1) }
    ensures { result ≡ yearly m kind out.now k }
{
    let delays = 2 * m - 1;
    let row = (k + 2).saturating_sub(m);
    let first = row * delays + (m + k - row);
    spaced_sum(out, 2 * first + kind, 2 * (delays - 1), m - row)
}

// The tally of all cells of a forecast's output, one calendar year after the other.
pub fn tally_of(out: &[i64], m: usize) -> Tally
    requires { (2 ≤ m) × (m ≤ 20) × (size m ≤ length out.now) × Small m out.now }
    ensures { result ≡ tally_of m out.now }
{
    let years = 2 * m - 2;
    let mut t = Tally {
        rbns: [0; 38],
        ibnr: [0; 38],
    };
    for k in 0..years {
        let rbns = year_sum(out, m, k, 0);
        let ibnr = year_sum(out, m, k, 1);
        t = t.add(k as u64 + 1, rbns, ibnr);
    }
    t
}
