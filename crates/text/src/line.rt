// The lines of the text, one by one and a block at a time.
ghost use Rattle.std.specs.Prelude.{◌≡◌, ◌+◌, ◌≤◌, ◌<◌, length, take};
ghost use Rattle.std.proofs.Math.Seq.{paste};
ghost use Rattle.text.specs.Internal.Scan.{count_from, line_count};
ghost use Rattle.text.specs.Internal.Blocks.{Lines, start_of, Split, Taken};

use super::digits::Codes;
use super::rules::Lengths;

// How many words are looked at together. A line that keeps the rules has far fewer.
const BLOCK: usize = 256;

// How many words the first line has; none where it is not of the form.
pub(crate) fn count(codes: &Codes, text: &[u8]) -> Option<usize>
    ensures { result ≡ line_count (count_from 1 text.now) }
{
    let whole = text.len() / 5;
    for k in 0..whole {
        let word = codes.word(&text[5 * k..]);
        if !word.is_whole() {
            return None;
        }
        if word.mark == 1 {
            return Some(k + 1);
        }
    }
    None
}

// Some words of a text, and the whole lines among them, in arrays with a count: nothing here is on a heap.
#[derive(Drop)]
pub(crate) struct Block {
    words: [u16; BLOCK],
    // behind which word each line ends
    ends: [u16; BLOCK],
    lines: usize,
    ghost whole: { Lines ends lines },
}

impl Block {
    pub(crate) fn new() -> Self {
        Block {
            words: [0; BLOCK],
            ends: [0; BLOCK],
            lines: 0,
        }
    }

    // Takes the whole lines at the start of a text that a block holds.
    pub(crate) fn split(&mut self, codes: &Codes, text: &[u8])
        ensures { Split text.now self.new.words self.new.ends self.new.lines }
    {
        self.lines = 0;
        let most = (text.len() / 5).min(BLOCK);
        let mut lines = 0;
        for k in 0..most {
            let word = codes.word(&text[5 * k..]);
            if !word.is_whole() {
                break;
            }
            self.words[k] = word.number();
            self.ends[lines] = (k + 1) as u16;
            lines += word.mark;
        }
        self.lines = lines;
    }

    // How many of the lines come before the first that breaks one of rules 5, 6 and 21: a count, 0 where the first breaks one.
    pub(crate) fn taken(&self, lengths: &Lengths, room: usize) -> usize
        ensures { Taken lengths.now.d self.now.words self.now.ends self.now.lines room result }
    {
        let mut start = 0;
        for i in 0..self.lines {
            let end = self.ends[i] as usize;
            if lengths
                .rule(self.words[start], end - start, room - start)
                .is_err()
            {
                return i;
            }
            start = end;
        }
        self.lines
    }

    // The words of the first lines.
    pub(crate) fn words(&self, lines: usize) -> &[u16]
        requires { (0 < lines) × (lines ≤ self.now.lines) }
        ensures { result.now ≡ take (start_of self.now.ends lines) self.now.words }
    {
        &self.words[..self.ends[lines - 1] as usize]
    }
}

// Words stored in the table, from one of its words on. The table is written by index, as everywhere.
pub(crate) fn store(words: &[u16], table: &mut [u16], from: usize)
    requires { from + length words.now ≤ length table.old }
    ensures { table.new ≡ paste table.old from words.now (length words.now) }
{
    for (i, word) in words.iter().enumerate() {
        table[from + i] = *word;
    }
}
