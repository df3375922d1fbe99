// The records of a file, each at its place in a lent list.
ghost use Rattle.std.specs.Prelude.{◌≡◌, [], ◌∷◌, ◌*◌, ◌≤◌, pos, length, replicate};
ghost use Rattle.model.specs.Questions.{first_no};
ghost use Rattle.refusals.specs.Refusals.{refusal_number};
ghost use Rattle.triangles.specs.Keys.{RecordsRead};

use records::{fields, questions};
use refusals::Refusal;

// The first no of questions 4 and 5.
#[tactic(auto, unfolding(model::specs::Questions::first_no))]
fn first_no(once: bool, ranged: bool) -> Result<(), Refusal>
    ensures { refusal_number result ≡ first_no ((4, once) ∷ (5, ranged) ∷ []) }
{
    if !once {
        return Err(Refusal::CellCopies);
    }
    if !ranged {
        return Err(Refusal::ValueRange);
    }
    Ok(())
}

// Questions 3 to 5 of the first n records, all of one line, and the values, each at its key.
// Question 4 is that no key stands twice: as the file is as long as a set, each cell then stands
// there once.
pub fn read_records(
    file: &[u8],
    m: usize,
    kinds: usize,
    line: usize,
    n: usize,
    set: &mut [i64; 1200],
) -> Result<(), Refusal>
    requires m_bound { (m ≤ 20) × (kinds ≤ 3) }
    requires n_in_bounds { 16 * n ≤ length file.now }
    requires set_value { set.old ≡ replicate 1200 (pos 0) }
    ensures { RecordsRead m kinds line file.now n (refusal_number result) set.new }
{
    let mut seen = [false; 1200];
    let mut once = true;
    let mut ranged = true;
    for k in 0..n {
        let h = fields::head(file, k);
        if !questions::record_ok(h, m, kinds, line) {
            return Err(Refusal::RecordForm);
        }
        let q = fields::key(h);
        let v = fields::value(file, k);
        once &= !seen[q];
        seen[q] = true;
        set[q] = v;
        ranged &= questions::in_range(h.kind, v);
    }
    first_no(once, ranged)
}
