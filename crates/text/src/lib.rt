// Text in lent memory. Numbers and fields are written from a place on, each by a function that
// hands back the place after what it wrote; of these the text of a tally and the closing page are
// made. By hand: `write!` would want a writer over lent memory, whose proof says all of this again.
#![tactic(auto)]

ghost use Rattle.std.specs.Prelude.{◌≡◌, [], ◌∷◌, ◌+◌, ◌≤◌, ◌<◌, length, replicate};
ghost use Rattle.model.specs.Calendar.{digits, amount};
ghost use Rattle.model.specs.Page.{aligned};
ghost use Rattle.text.specs.Written.{Written};

// Writes one byte.
pub fn put(out: &mut [u8], at: usize, b: u8) -> usize
    requires { at < length out.old }
    ensures { Written out.old at (b ∷ []) out.new result }
{
    out[at] = b;
    at + 1
}

// Writes the bytes of s.
pub fn write_bytes(out: &mut [u8], at: usize, s: &[u8]) -> usize
    requires { at + length s.now ≤ length out.old }
    ensures { Written out.old at s.now out.new result }
{
    let end = at + s.len();
    out[at..end].copy_from_slice(s);
    end
}

// Writes the digits of n.
pub fn write_digits(out: &mut [u8], at: usize, n: u64) -> usize
    requires { at + length (digits n) ≤ length out.old }
    ensures { Written out.old at (digits n) out.new result }
{
    if n < 10 {
        return put(out, at, b'0' + n as u8);
    }
    let end = write_digits(out, at, n / 10);
    put(out, end, b'0' + (n % 10) as u8)
}

// Writes the digits of an amount, with a minus sign before a negative one.
pub fn write_amount(out: &mut [u8], at: usize, value: i64) -> usize
    requires { at + length (amount value) ≤ length out.old }
    ensures { Written out.old at (amount value) out.new result }
{
    let n = value.unsigned_abs();
    if value < 0 {
        let next = put(out, at, b'-');
        return write_digits(out, next, n);
    }
    write_digits(out, at, n)
}

// How many digits n has.
fn digits_length(n: u64) -> usize
    ensures { result ≡ length (digits n) }
{
    match n.checked_ilog10() {
        Some(k) => k as usize + 1,
        None => 1,
    }
}

// How many bytes the text of an amount has.
fn amount_length(value: i64) -> usize
    ensures { result ≡ length (amount value) }
{
    let n = value.unsigned_abs();
    let count = digits_length(n);
    if value < 0 {
        return count + 1;
    }
    count
}

// Writes n spaces.
fn write_spaces(out: &mut [u8], at: usize, n: usize) -> usize
    requires { at + n ≤ length out.old }
    ensures { Written out.old at (replicate n 32) out.new result }
{
    let end = at + n;
    out[at..end].fill(b' ');
    end
}

// Writes an amount at the right of a field of `width` bytes, behind spaces; one that is wider takes
// the bytes that it needs.
pub fn write_aligned(out: &mut [u8], at: usize, width: usize, value: i64) -> usize
    requires { at + length (aligned width (amount value)) ≤ length out.old }
    ensures { Written out.old at (aligned width (amount value)) out.new result }
{
    let n = amount_length(value);
    let start = write_spaces(out, at, width.saturating_sub(n));
    write_amount(out, start, value)
}
