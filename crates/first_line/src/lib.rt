// The first line of the input of `closing`: "m method basis".
#![tactic(auto)]

ghost use Rattle.std.specs.Prelude.{◌≡◌, ◌≤◌, ◌<◌, length};
ghost use Rattle.model.specs.Calendar.{front, value_from, run_at, first_line};

use model::{Asked, Run};

// The number that at most four digits say.
fn number_of(digits: &[u8]) -> u64
    requires { length digits.now ≤ 4 }
    ensures { result ≡ value_from 0 digits.now }
{
    let mut v: u64 = 0;
    for b in digits {
        v = v * 10 + u64::from(b.saturating_sub(b'0'));
    }
    v
}

// How many digits s starts with.
fn digits_in_front(s: &[u8]) -> usize
    ensures { result ≡ length (front s.now) }
{
    s.iter().take_while(|b| b.is_ascii_digit()).count()
}

// The run of one to four digits at `at`, ended by the byte `end`.
fn run_at(s: &[u8], at: usize, end: u8) -> Option<Run>
    requires at_in_bounds { at ≤ length s.now }
    requires end_nonzero { 0 < end }
    ensures { result ≡ run_at s.now at end }
{
    let rest = &s[at..];
    let n = digits_in_front(rest);
    let 1..=4 = n else {
        return None;
    };
    if rest.len() <= n || rest[n] != end {
        return None;
    }
    Some(Run {
        number: number_of(&rest[..n]),
        next: at + n + 1,
    })
}

// Reads the first line.
pub fn read_first_line(s: &[u8]) -> Option<Asked>
    ensures { result ≡ first_line s.now }
{
    let m = run_at(s, 0, b' ')?;
    let method = run_at(s, m.next, b' ')?;
    let basis = run_at(s, method.next, b'\n')?;
    Some(Asked {
        m: m.number,
        method: method.number,
        basis: basis.number,
        start: basis.next,
    })
}
