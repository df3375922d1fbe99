// The cells of a year (01, Cell forecasts).
#![tactic(auto)]

ghost use Rattle.std.specs.Prelude.{◌≡◌, ◌↔◌, ◌+◌, ◌-◌, ◌*◌, ◌≤◌, ◌<◌, leb, pos, length};
ghost use Rattle.model.specs.Lists.{tabulate};
ghost use Rattle.model.specs.Overlay.{overlay};
ghost use Rattle.model.specs.Cells.{pairs};
ghost use Rattle.cells.specs.Weights.{Weights, Delays};
ghost use Rattle.cells.specs.CellOf.{number, OfYear, year_cell, entries_of};

// The sum of x(k) × p(j-k) over the k up to n, which is at most j, with j - k at most m - 1.
fn pair_sum(x: &[i64; 20], p: &[i64; 20], m: usize, j: usize, n: usize) -> i64
    requires n_lt_m { (n < m) × (m ≤ 20) × (n ≤ j) × (j < 40) }
    requires weights { Weights x.now }
    requires delays { Delays p.now }
    ensures { result ≡ pairs m j (λ k. leb k n) x.now p.now }
{
    let mut sum = 0;
    for k in (j + 1).saturating_sub(m)..n + 1 {
        sum += x[k] * p[j - k];
    }
    sum
}

// RBNS and IBNR of one cell.
#[derive(Clone, Copy)]
pub struct Cell {
    pub rbns: i64,
    pub ibnr: i64,
}

// What the reported claims are weighed by: a year's actual counts, or the estimated ones.
#[derive(Clone, Copy)]
pub enum Basis {
    Actual,
    Estimated,
}

// By the number of a call: 1 is estimated, any other number actual.
impl From<u64> for Basis {
    ghost from_gives = { λ n b. (number b ≡ 1) ↔ (n ≡ 1) };

    fn from(n: u64) -> Basis {
        match n {
            1 => Basis::Estimated,
            _ => Basis::Actual,
        }
    }
}

// What the cells of year i are made of, in a set of size m: v is the row base, s weighs the
// reported claims, p holds the delays, and `unreported` the sums over the claims that are not
// reported. With estimated counts `whole` holds the sums over all claims.
#[derive(Clone, Copy)]
pub struct YearParts<'a> {
    pub m: usize,
    pub i: usize,
    pub v: i64,
    pub basis: Basis,
    pub whole: &'a [i64; 39],
    pub unreported: &'a [i64; 39],
    pub s: &'a [i64; 20],
    pub p: &'a [i64; 20],
}

impl<'a> YearParts<'a> {
    // The sum of s(k) × p(j-k) over the reported claims of the year: with estimated counts the
    // whole sum less that over the unreported claims.
    fn reported_sum(&self, j: usize) -> i64
        requires { OfYear self.now × (self.now.m < self.now.i + j) × (j < 39) }
        ensures { result ≡ pairs self.now.m j (λ k. leb k (self.now.m - self.now.i)) self.now.s.now self.now.p.now }
    {
        match self.basis {
            Basis::Estimated => self.whole[j] - self.unreported[j],
            Basis::Actual => pair_sum(self.s, self.p, self.m, j, self.m - self.i),
        }
    }

    // The cell of delay j, which is not known yet.
    pub fn open_cell(&self, j: usize) -> Cell
        requires of_year { OfYear self.now }
        requires m_bound { (self.now.m < self.now.i + j) × (j < 39) }
        ensures { result ≡ year_cell self.now j }
    {
        let reported = self.reported_sum(j);
        Cell {
            rbns: scaling::scale_cell(self.v, reported),
            ibnr: scaling::scale_cell(self.v, self.unreported[j]),
        }
    }

    // Writes the cells of the year, RBNS and IBNR for each delay from 0 to 2m - 2, from entry
    // `from` on.
    pub fn write(&self, out: &mut [i64], from: usize)
        requires of_year { OfYear self.now }
        requires m_in_bounds { from + 2 * (2 * self.now.m - 1) ≤ length out.old }
        ensures { out.new ≡ overlay out.old from (entries_of self.now) }
    {
        let first = self.m + 1 - self.i;
        write_known(out, from, 2 * first);
        for j in first..2 * self.m - 1 {
            let cell = self.open_cell(j);
            let place = from + 2 * j;
            out[place] = cell.rbns;
            out[place + 1] = cell.ibnr;
        }
    }
}

// Writes n zeros from entry `from` on: the cells that are known.
fn write_known(out: &mut [i64], from: usize, n: usize)
    requires { from + n ≤ length out.old }
    ensures { out.new ≡ overlay out.old from (tabulate n (λ _. pos 0)) }
{
    out[from..from + n].fill(0);
}
