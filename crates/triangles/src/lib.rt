// The reader of triangle sets (01, Triangle records).
#![tactic(auto)]

mod cells;

ghost use Rattle.std.specs.Prelude.{◌≡◌, ◌≤◌, ◌<◌, pos, replicate};
ghost use Rattle.model.specs.Records.{line_of, has_incurred};
ghost use Rattle.model.specs.Calls.{if_accepted, refused_read, read_answer};
ghost use Rattle.model.specs.Lent.{triangle_in, ReadInto};
ghost use Rattle.refusals.specs.Refusals.{refusal_number};

use records::questions;
use refusals::Refusal;

// A refusal, with zeros beside it; each answer has fields of its own, so each has its own.
fn refused(number: u64) -> model::ReadAnswer
    ensures { result ≡ refused_read number }
{
    let none = [0i64; 400];
    model::ReadAnswer {
        refusal: number,
        set: model::TriangleSet {
            line: 0,
            has_incurred: false,
            counts: none,
            paid: none,
            incurred: none,
        },
    }
}

// Whether a file's length is that of a set with incurred.
#[tactic(auto, using(model::specs::Lengths::set_most), unfolding(model::specs::Records::has_incurred))]
pub fn has_incurred(file: &[u8], m: usize) -> bool
    requires { m ≤ 20 }
    ensures { result ≡ has_incurred m file.now }
{
    file.len() == 16 * questions::set_records(m, true)
}

// The line of cover of a file: that of its first record, 0 where there is none.
pub fn line(file: &[u8]) -> u64
    ensures { result ≡ line_of file.now }
{
    u64::from(file.get(3).copied().unwrap_or(0))
}

// Stores the line of a file beside its refusal number, where that is 0.
pub fn store_line(file: &[u8], number: u64, out: &mut u64)
    ensures { out.new ≡ if_accepted number (line_of file.now) out.old }
{
    if number == 0 {
        *out = line(file);
    }
}

// Questions 1 to 5 of a file and, where it is accepted, its set in the lent list, which comes as
// zeros. One list for three triangles, since a record is stored by one key (`key_at`).
pub fn read_cells(file: &[u8], m: usize, set: &mut [i64; 1200]) -> Result<(), Refusal>
    requires { set.old ≡ replicate 1200 (pos 0) }
    ensures { ReadInto m file.now (refusal_number result) set.new }
{
    if !questions::q1(m) {
        return Err(Refusal::Size);
    }
    let incurred = has_incurred(file, m);
    let n = questions::set_records(m, incurred);
    if file.len() != 16 * n {
        return Err(Refusal::FileLength);
    }
    let kinds = questions::kinds(incurred);
    cells::read_records(file, m, kinds, line(file) as usize, n, set)
}

// The triangle of a kind, 0 to 2 as `triangle_in` numbers its place in the list, copied out of a
// set.
pub fn copy_kind(set: &[i64; 1200], kind: usize, out: &mut [i64; 400])
    requires { kind < 3 }
    ensures { out.new ≡ triangle_in kind set.now }
{
    out.copy_from_slice(&set[400 * kind..400 * kind + 400]);
}

// The reader: questions 1 to 5, and the set.
pub fn read_set(file: &[u8], m: usize) -> model::ReadAnswer
    ensures { result ≡ read_answer m file.now }
{
    let mut set = [0i64; 1200];
    if let Err(refusal) = read_cells(file, m, &mut set) {
        return refused(u64::from(refusal));
    }
    let mut counts = [0i64; 400];
    copy_kind(&set, 0, &mut counts);
    let mut paid = [0i64; 400];
    copy_kind(&set, 1, &mut paid);
    let mut incurred = [0i64; 400];
    copy_kind(&set, 2, &mut incurred);
    model::ReadAnswer {
        refusal: 0,
        set: model::TriangleSet {
            line: line(file),
            has_incurred: has_incurred(file, m),
            counts,
            paid,
            incurred,
        },
    }
}
