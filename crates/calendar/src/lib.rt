// The whole answer of `closing` to its input (01, Calendar years and the program).
#![tactic(auto)]

ghost use Rattle.std.specs.Prelude.{◌≡◌, ◌≤◌, length};
ghost use Rattle.model.specs.Overlay.{overlay};
ghost use Rattle.model.specs.Calls.{file_text, closing_text, respond_answer, respond_output, Responded};

use first_line::read_first_line;
use refusals::Refusal;
use tally::tally_of;
use tally_text::{write_refusal, write_tally_text};
use text::write_bytes;

// The bytes that `closing` reads at most: one more than the longest legal input has.
pub const INPUT_ROOM: usize = 10096;

// Room for every text that `closing` prints.
pub const TEXT_ROOM: usize = 4096;

// The bytes that such a text has at most.
const LONGEST: usize = 2573;

// Writes the answer to a file: the text of its forecast's tally, or of the refusal. Method and
// basis are the numbers that the first line says.
fn answer_file(file: &[u8], m: usize, method: u64, basis: u64, text: &mut [u8]) -> usize
    requires { 2573 ≤ length text.old }
    ensures { (text.new ≡ overlay text.old 0 (file_text m file.now method basis)) × (result ≡ length (file_text m file.now method basis)) }
{
    let mut leftovers = [0i64; 20];
    let mut entries = [0i64; 1560];
    match forecast::forecast_into(file, m, method, basis, &mut leftovers, &mut entries) {
        Ok(()) => write_tally_text(text, m, &tally_of(&entries, m)),
        Err(refusal) => write_refusal(text, u64::from(refusal)),
    }
}

// Writes the answer to an input: its first line and the file behind it.
fn answer(input: &[u8], text: &mut [u8]) -> usize
    requires { 2573 ≤ length text.old }
    ensures { (text.new ≡ overlay text.old 0 (closing_text input.now)) × (result ≡ length (closing_text input.now)) }
{
    let Some(asked) = read_first_line(input) else {
        return write_refusal(text, u64::from(Refusal::Size));
    };
    let file = &input[asked.start..];
    answer_file(file, asked.m as usize, asked.method, asked.basis, text)
}

// `respond` for an output that may be too short: the text is made elsewhere first.
fn respond_short(input: &[u8], out: &mut [u8]) -> usize
    ensures { (result ≡ respond_answer input.now out.old) × (out.new ≡ respond_output input.now out.old) }
{
    let mut text = [0u8; LONGEST];
    let n = answer(input, &mut text);
    if out.len() < n {
        return 0;
    }
    write_bytes(out, 0, &text[..n])
}

// The text that `closing` prints for its whole standard input, written to the front of the output;
// hands back its length. Where the output is too short for the text, it stays as it was and the
// answer is 0, as C has it. No text is longer than 2,573 bytes.
pub fn respond(input: &[u8], out: &mut [u8]) -> usize
    ensures { (result ≡ respond_answer input.now out.old) × (out.new ≡ respond_output input.now out.old) }
{
    if out.len() < LONGEST {
        return respond_short(input, out);
    }
    answer(input, out)
}

// The text for an input of which n bytes were read into the buffer, all that there were or as many
// as it holds, written to the front of the output; hands back its length. The buffer goes with n,
// and is no slice of n bytes, since a full one stands for every longer input.
pub fn respond_to(input: &[u8; INPUT_ROOM], n: usize, out: &mut [u8; TEXT_ROOM]) -> usize
    ensures { Responded input.now n out.old out.new result }
{
    let read: &[u8] = input;
    if n < read.len() {
        return answer(&read[..n], out);
    }
    answer(read, out)
}
