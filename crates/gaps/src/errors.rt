// The number of cells compared, and the sums of absolute errors. The gap of cell (i,j) stands at 20
// × (i-1) + j. Each sum is a loop of its own: a chain's sum() left its bound and its tie to the
// model's sum open, and the contract of a function over closures would be longer than the loops.
ghost use Rattle.std.specs.Prelude.{◌≡◌, suc, ◌+◌, ◌*◌, ◌≤◌, ◌<◌, nat_abs};
ghost use Rattle.integers.specs.Sums.{sum};
ghost use Rattle.model.specs.Lists.{total};
ghost use Rattle.model.specs.Records.{cell};
ghost use Rattle.model.specs.BackTest.{cell_number, cellwise, year_gap, yearwise, overall};
ghost use Rattle.gaps.specs.Gaps.{SmallGaps, row_in_year};

// The number of cells compared.
pub fn cell_number(c: usize, n: usize) -> u64
    requires { (1 ≤ n) × (n ≤ 20) }
    ensures { result ≡ cell_number c n }
{
    let mut out = 0u64;
    for k in 0..c.min(n - 1) {
        out += (n - 1 - k) as u64;
    }
    out
}

// The absolute errors of the cells of row k + 1.
fn row_error(d: &[i64; 400], n: usize, k: usize) -> u64
    requires { SmallGaps d.now × (n ≤ 20) × (k < 20) }
    ensures { result ≡ total n (λ j. nat_abs (cell d.now (suc k) j)) }
{
    let mut out = 0u64;
    for j in 0..n {
        out += d[20 * k + j].unsigned_abs();
    }
    out
}

// The sum of absolute errors by cell.
pub fn cellwise(d: &[i64; 400], n: usize) -> u64
    requires { SmallGaps d.now × (n ≤ 20) }
    ensures { result ≡ cellwise n (cell d.now) }
{
    let mut out = 0u64;
    for k in 0..n {
        out += row_error(d, n, k);
    }
    out
}

// The gap of row k + 1 in the calendar year where i + j is `end`, 0 where the row has no cell in
// it.
fn row_in_year(d: &[i64; 400], n: usize, k: usize, end: usize) -> i64
    requires { (n ≤ 20) × (k < 20) }
    ensures { result ≡ row_in_year d.now n k end }
{
    if end <= k {
        return 0;
    }
    let j = end - 1 - k;
    if n <= j {
        return 0;
    }
    d[20 * k + j]
}

// The sum of the gaps in calendar year t.
fn year_gap(d: &[i64; 400], n: usize, t: usize) -> i64
    requires { SmallGaps d.now × (n ≤ 20) × (t ≤ 20) }
    ensures { result ≡ year_gap n (cell d.now) t }
{
    let mut out = 0i64;
    for k in 0..n {
        out += row_in_year(d, n, k, n + t);
    }
    out
}

// The sum of absolute errors by calendar year, years 1 to c.
pub fn yearwise(d: &[i64; 400], n: usize, c: usize) -> u64
    requires { SmallGaps d.now × (n ≤ 20) × (c ≤ 20) }
    ensures { result ≡ yearwise n c (cell d.now) }
{
    let mut out = 0u64;
    for k in 0..c {
        out += year_gap(d, n, k + 1).unsigned_abs();
    }
    out
}

// The sum of the gaps of row k + 1.
fn row_gap(d: &[i64; 400], n: usize, k: usize) -> i64
    requires { SmallGaps d.now × (n ≤ 20) × (k < 20) }
    ensures { result ≡ sum n (λ j. cell d.now (suc k) j) }
{
    let mut out = 0i64;
    for j in 0..n {
        out += d[20 * k + j];
    }
    out
}

// The absolute error of the total.
pub fn overall(d: &[i64; 400], n: usize) -> u64
    requires { SmallGaps d.now × (n ≤ 20) }
    ensures { result ≡ overall n (cell d.now) }
{
    let mut out = 0i64;
    for k in 0..n {
        out += row_gap(d, n, k);
    }
    out.unsigned_abs()
}
