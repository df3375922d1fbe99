// The calendar-year tally (01, Calendar years), which stands with its one method below the
// definitions that speak of it.
#![tactic(auto)]

ghost use Rattle.std.specs.Prelude.{◌≡◌};
ghost use Rattle.year_tally.specs.TallyAdd.{tally_add};

// The sums of each calendar year 1 to 38, year t at place t - 1.
#[derive(Clone, Copy)]
pub struct Tally {
    pub rbns: [i64; 38],
    pub ibnr: [i64; 38],
}

impl Tally {
    // The tally with a cell added to its calendar year's sums; the same tally for a year outside 1
    // to 38, or where a sum leaves the signed 64-bit numbers.
    pub fn add(mut self, year: u64, rbns: i64, ibnr: i64) -> Tally
        ensures { result ≡ tally_add self year rbns ibnr }
    {
        let 1..=38 = year else {
            return self;
        };
        let i = (year - 1) as usize;
        let Some(a) = self.rbns[i].checked_add(rbns) else {
            return self;
        };
        let Some(b) = self.ibnr[i].checked_add(ibnr) else {
            return self;
        };
        self.rbns[i] = a;
        self.ibnr[i] = b;
        self
    }
}
