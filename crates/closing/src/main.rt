// The program `closing`: reads standard input, and writes the text that `calendar::respond_to`
// makes of it. Where a read or a write fails, that is told on standard error; after a failed read
// nothing goes to standard output.
#![tactic(auto)]

ghost use Rattle.closing.specs.Ends.{Read, WholeOf, Answered};

use calendar::{INPUT_ROOM, TEXT_ROOM};
use std::io;
use std::io::ErrorKind;

// A loop has to end: this many calls move the longest input or text a byte at a time, with about
// half of them interrupted by signals.
const CALLS: usize = 20000;

// Reads until the input ends, the buffer is full or a read fails, and hands back how many bytes. A
// read may give fewer bytes than it was asked for, and then the next one goes on after them; one
// that a signal interrupted is made again.
fn read_all<R: io::Read>(reader: &mut R, buf: &mut [u8]) -> io::Result<usize>
    ensures { Read result buf.old buf.new }
{
    let mut done = 0;
    for _ in 0..CALLS {
        if done == buf.len() {
            break;
        }
        match reader.read(&mut buf[done..]) {
            Ok(0) => return Ok(done),
            Ok(n) => done += n,
            Err(error) if error.kind() == ErrorKind::Interrupted => {}
            Err(error) => return Err(error),
        }
    }
    if done < buf.len() {
        return Err(io::Error::from(ErrorKind::Interrupted));
    }
    Ok(done)
}

// Writes the text and hands back its length, or stops at a write that fails or takes nothing. A
// write may take fewer bytes than it was given, and then the next one goes on after them; one that
// a signal interrupted is made again.
fn write_whole<W: io::Write>(writer: &mut W, text: &[u8]) -> io::Result<usize>
    ensures { WholeOf result text.now }
{
    let mut sent = 0;
    for _ in 0..CALLS {
        if sent == text.len() {
            break;
        }
        match writer.write(&text[sent..]) {
            Ok(0) => return Err(io::Error::from(ErrorKind::WriteZero)),
            Ok(n) => sent += n,
            Err(error) if error.kind() == ErrorKind::Interrupted => {}
            Err(error) => return Err(error),
        }
    }
    if sent < text.len() {
        return Err(io::Error::from(ErrorKind::Interrupted));
    }
    Ok(sent)
}

// Writes the text for the input that was read into the buffer; after a failed read, nothing.
fn answer<W: io::Write>(
    writer: &mut W,
    input: &[u8; INPUT_ROOM],
    read: io::Result<usize>,
) -> io::Result<usize>
    ensures { Answered result input.now read }
{
    let n = read?;
    let mut text = [0u8; TEXT_ROOM];
    let k = calendar::respond_to(input, n, &mut text);
    write_whole(writer, &text[..k])
}

// Has no `ensures`, since no contract can say what goes in and out of a program: that of `answer`
// says what is made of the bytes that were read.
fn main(rt: HostRuntime) {
    let mut input = [0u8; INPUT_ROOM];
    let read = read_all(&mut rt.stdin(), &mut input);
    if let Err(error) = answer(&mut rt.stdout(), &input, read) {
        // Where this fails too, there is nobody to tell.
        let _ = eprintln!(rt; "closing: {error}");
    }
}
