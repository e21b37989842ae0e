// Judges the circuit whose text stands on standard input, and prints one line.
#![tactic(auto)]

ghost use Rattle.std.specs.Prelude.{◌≡◌, ◌≤◌, length, take};
ghost use Rattle.std.specs.Io.KnownBytes.{Appends, Consumes};
ghost use Rattle.checker.specs.Answers.{answer_of};
ghost use Rattle.judge.specs.Judged.{judged_text};

mod line;

use checker::Accepted;
use circuit::Refusal;
use std::io::{Read, Write};

// A text read into the table, and the words found checked. A refusal by the reader gives its line as the frame.
fn judge(text: &[u8], table: &mut [u16], notes: &mut [u16]) -> Result<Accepted, Refusal>
    ensures { answer_of result ≡ judged_text text.now (length table.old) (length notes.old) }
{
    let words = text::read(text, table)?;
    checker::check(&table[..words], notes)
}

// Reads until the buffer is full, the input ends or a read fails, and gives how many bytes now stand at its start. (std's
// `read_exact` does not say how many bytes it read before an end or an error; each turn reads as many as the input gives.)
fn read_full<R: Read>(input: &mut R, buffer: &mut [u8]) -> usize
    ensures bound { result ≤ length buffer.new }
    ensures bytes { Consumes (R.remaining input.old) (R.remaining input.new) (take result buffer.new) }
{
    let mut size = 0;
    while size < buffer.len() {
        match input.read(&mut buffer[size..]) {
            Ok(0) | Err(_) => break,
            Ok(count) => size += count,
        }
    }
    size
}

// Writes all the bytes, or stops at the first write that takes nothing or fails. Gives how many were written. (std's `write_all`
// does not say how many it wrote before an error; each turn writes as many as the output takes.)
fn write_all<W: Write>(output: &mut W, bytes: &[u8]) -> usize
    ensures bound { result ≤ length bytes.now }
    ensures bytes { Appends (W.contents output.old) (W.contents output.new) (take result bytes.now) }
{
    let mut size = 0;
    while size < bytes.len() {
        match output.write(&bytes[size..]) {
            Ok(0) | Err(_) => break,
            Ok(count) => size += count,
        }
    }
    size
}

// The first 49,152 bytes of standard input are judged. A read that fails counts as the end of the input.
fn main(rt: HostRuntime) {
    let mut text = [0u8; 49152];
    let mut table = [0u16; circuit::TABLE_WORDS];
    let mut notes = [0u16; circuit::NOTES_WORDS];
    let mut out = [0u8; 96];
    let size = read_full(&mut rt.stdin(), &mut text);
    let answer = judge(&text[..size], &mut table, &mut notes);
    let end = line::write(answer, &mut out);
    write_all(&mut rt.stdout(), &out[..end]);
}
