// The data that the library's calls take and hand back. Their meaning is in specs/, a file for each
// section of document 01.
#![tactic(auto)]

// A set of triangles: its line of cover (02, Job 7), 0 to 5, and cell (i,j) at 20 × (i-1) + j, with
// zeros in the other places. `has_incurred` says that incurred is there beside counts and paid;
// where it is not, incurred has zeros (`set_of`), and so no `Option`, which C has not either.
#[derive(Clone, Copy)]
pub struct TriangleSet {
    pub line: u64,
    pub has_incurred: bool,
    pub counts: [i64; 400],
    pub paid: [i64; 400],
    pub incurred: [i64; 400],
}

// What the reader hands back. A refusal of 0 says that the file is accepted. In this and in every
// answer below the line is that of the set, and 0 beside a refusal. A refusal is a number here and
// no `Err`: document 01 has zeros beside it, and the theorems of docs/TRUST.md speak of such
// answers.
#[derive(Clone, Copy)]
pub struct ReadAnswer {
    pub refusal: u64,
    pub set: TriangleSet,
}

// Shares and ultimates: b and N of counts; q, g and U of paid. Delay j stands at place j, year i at
// place i - 1. Lists of 20 serve every m, with zeros behind the last entry: memory is fixed.
#[derive(Clone, Copy)]
pub struct SharesAnswer {
    pub refusal: u64,
    pub line: u64,
    pub b: [i64; 20],
    pub n: [i64; 20],
    pub q: [i64; 20],
    pub g: [i64; 20],
    pub u: [i64; 20],
}

// The delays, p(l) at place l.
#[derive(Clone, Copy)]
pub struct DelaysAnswer {
    pub refusal: u64,
    pub line: u64,
    pub p: [i64; 20],
}

// Whether given delays (02, Job 6) are accepted.
#[derive(Clone, Copy)]
pub struct CheckDelaysAnswer {
    pub refusal: u64,
    pub line: u64,
}

// The leftovers, beside the output that the caller lends; year i at place i - 1.
#[derive(Clone, Copy)]
pub struct ForecastAnswer {
    pub refusal: u64,
    pub line: u64,
    pub leftovers: [i64; 20],
}

// A year's inflation against the first year.
#[derive(Clone, Copy)]
pub enum Inflation {
    BaseYear,
    NoPaymentsYet,
    Ratio(f64),
}

#[derive(Clone, Copy)]
pub struct YearInflation {
    pub value: Inflation,
}

// Claim costs (document 01's claim-cost card): mu is the first year's mean cost, f(j) stands at
// place j - 1, year i's inflation at place i - 1.
#[derive(Clone, Copy)]
pub struct ClaimCosts {
    pub mu: f64,
    pub factors: [f64; 20],
    pub inflations: [YearInflation; 20],
}

#[derive(Clone, Copy)]
pub struct ClaimCostsAnswer {
    pub refusal: u64,
    pub line: u64,
    pub costs: ClaimCosts,
}

// The back-test: the number of cells, and the sums of absolute errors by cell, by calendar year and
// of the total.
#[derive(Clone, Copy)]
pub struct BackTestAnswer {
    pub refusal: u64,
    pub line: u64,
    pub cells: u64,
    pub cellwise: u64,
    pub yearwise: u64,
    pub overall: u64,
}

// What a claims journal has come to (02, Job 3): each reported claim's accident year, 0 for none;
// reports counted and payments added by cell, cell (i,j) at 20 × (i-1) + j; the calendar year of
// the last transaction, 0 for none: C lends this struct, and has no `Option`.
#[repr(C)]
#[derive(Clone, Copy)]
pub struct JournalTally {
    pub claims: [u8; 4096],
    pub counts: [i64; 400],
    pub paid: [i64; 400],
    pub last: usize,
}

// A transaction of a journal: kind 0 reports a claim, kind 1 pays an amount; `spare` is the byte
// that has to be zero. Any numbers may be handed in, so the kind is one too: question 16 asks.
#[derive(Clone, Copy)]
pub struct Transaction {
    pub claim: usize,
    pub kind: usize,
    pub accident: usize,
    pub calendar: usize,
    pub spare: usize,
    pub amount: i64,
}

// A date of the Gregorian calendar (02, Job 5), or what is given for one: any three numbers.
#[derive(Clone, Copy)]
pub struct Date {
    pub year: u64,
    pub month: u64,
    pub day: u64,
}

// What falls due in a window of dates (02, Job 5).
#[derive(Clone, Copy)]
pub struct CashAnswer {
    pub refusal: u64,
    pub line: u64,
    pub amount: i64,
}

// A run of digits and the byte after it: its number, and the place after that byte.
#[derive(Clone, Copy)]
pub struct Run {
    pub number: u64,
    pub next: usize,
}

// What the first line of `closing` asks, and the place where the file starts.
#[derive(Clone, Copy)]
pub struct Asked {
    pub m: u64,
    pub method: u64,
    pub basis: u64,
    pub start: usize,
}
