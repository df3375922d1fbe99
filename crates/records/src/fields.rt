// The fields of a record of a file.
ghost use Rattle.std.specs.Prelude.{◌≡◌, ◌+◌, ◌-◌, ◌*◌, ◌≤◌, ◌<◌, length, get_or};
ghost use Rattle.model.specs.Records.{value_at};
ghost use Rattle.records.specs.OneRecord.{Number, HeadAt};

// The byte at a place of the file: `usize::from` with its range as a promise, for its callers.
pub fn byte(file: &[u8], at: usize) -> usize
    requires { at < length file.now }
    ensures { (result ≡ get_or file.now at 0) × (result < 256) }
{
    usize::from(file[at])
}

// A number of four bytes, the lowest in front.
pub fn four(file: &[u8], at: usize) -> usize
    requires { at + 4 ≤ length file.now }
    ensures { Number 4 file.now at result }
{
    u32::from_le_bytes(file[at..at + 4].try_into().unwrap()) as usize
}

// The first eight bytes of a record: its kind, its accident year, its delay and, as one number with
// the spare bytes, its line of cover. The kind is any byte until question 3 is asked.
#[derive(Clone, Copy)]
pub struct RecordHead {
    pub kind: usize,
    pub year: usize,
    pub delay: usize,
    pub line: usize,
}

pub fn head(file: &[u8], k: usize) -> RecordHead
    requires { 16 * k + 16 ≤ length file.now }
    ensures { HeadAt file.now k result.kind result.year result.delay result.line }
{
    let at = 16 * k;
    let w = usize::from_le_bytes(file[at..at + 8].try_into().unwrap());
    RecordHead {
        kind: w % 256,
        year: w / 256 % 256,
        delay: w / 65536 % 256,
        line: w / 16777216,
    }
}

// The value of a record.
pub fn value(file: &[u8], k: usize) -> i64
    requires { 16 * k + 16 ≤ length file.now }
    ensures { result ≡ value_at file.now k }
{
    let at = 16 * k + 8;
    i64::from_le_bytes(file[at..at + 8].try_into().unwrap())
}

// The key of a record: 400 times its kind, and the place of its cell.
pub fn key(h: RecordHead) -> usize
    requires { (h.kind < 3) × (1 ≤ h.year) × (h.year + h.delay ≤ 20) }
    ensures value { result ≡ 400 * h.kind + (20 * (h.year - 1) + h.delay) }
    ensures below { result < 1200 }
{
    400 * h.kind + (20 * (h.year - 1) + h.delay)
}
