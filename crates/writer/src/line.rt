// A frame's words as a line: four digits 0-9A-F a word, a space between, a line feed behind the last.
ghost use Rattle.std.specs.Prelude.{◌≡◌, [], ◌∷◌, ◌++◌, ◌+◌, ◌*◌, ◌-◌, ◌≤◌, ◌<◌, length, set};
ghost use Rattle.std.proofs.lemmas.List.Edits.{sets};
ghost use Rattle.std.proofs.Math.Seq.{slice};
ghost use Rattle.text.specs.Lines.{line_feed, space};
ghost use Rattle.writer.specs.Writer.{digit_byte, digits_of};
ghost use Rattle.writer.specs.Internal.Line.{spaced_of, PairsTo};

// The byte of a digit: 0 is the byte 48, and the letters come 7 later than right behind 9. (Hexadecimal, for the table of pairs;
// the program's line has decimal numbers.)
fn digit_byte(n: u16) -> u16
    requires { n < 16 }
    ensures { (result ≡ digit_byte n) × (result < 128) }
{
    48 + n + n / 10 * 7
}

// The pairs of the bytes whose first digit is `i`, behind those of the bytes before them.
fn pair_row(pairs: &mut [u16; 256], i: usize)
    requires { (i < 16) × PairsTo (16 * i) pairs.old }
    ensures { PairsTo (16 * i + 16) pairs.new }
{
    let first = digit_byte(i as u16);
    for j in 0..16 {
        pairs[16 * i + j] = first + 256 * digit_byte(j as u16);
    }
}

// By a byte, its pair of digits: the first is the lower half.
#[derive(Drop)]
pub(crate) struct Pairs {
    by_byte: [u16; 256],
    ghost all: { PairsTo 256 by_byte },
}

impl Pairs {
    // A caller holds the pairs in a variable of its own, so that they are made once; row by row, since the compiler then makes a
    // constant of them.
    pub fn new() -> Self {
        let mut by_byte = [0u16; 256];
        for i in 0..16 {
            pair_row(&mut by_byte, i);
        }
        Pairs { by_byte }
    }

    // A word's digits and a space behind them, from a place of the text on.
    fn write_word(&self, word: u16, text: &mut [u8], at: usize)
        requires { at + 5 ≤ length text.old }
        ensures { text.new ≡ sets text.old at (digits_of word ++ space ∷ []) }
    {
        let high = self.by_byte[(word / 256) as usize];
        let low = self.by_byte[(word % 256) as usize];
        text[at] = (high % 256) as u8;
        text[at + 1] = (high / 256) as u8;
        text[at + 2] = (low % 256) as u8;
        text[at + 3] = (low / 256) as u8;
        text[at + 4] = b' ';
    }

    // The words from one place of the table to another, each with a space behind it, at their place in the text: five bytes a word.
    fn write_rest(&self, table: &[u16], from: usize, to: usize, text: &mut [u8])
        requires { (from ≤ to) × (to ≤ length table.now) × (5 * to ≤ length text.old) }
        ensures { text.new ≡ sets text.old (5 * from) (spaced_of (slice from to table.now)) }
    {
        for i in from..to {
            self.write_word(table[i], text, 5 * i);
        }
    }

    // The same of a frame, which has two words at least: many have no more.
    pub fn write_words(&self, table: &[u16], from: usize, to: usize, text: &mut [u8])
        requires { (from + 2 ≤ to) × (to ≤ length table.now) × (5 * to ≤ length text.old) }
        ensures { text.new ≡ sets text.old (5 * from) (spaced_of (slice from to table.now)) }
    {
        self.write_word(table[from], text, 5 * from);
        self.write_word(table[from + 1], text, 5 * from + 5);
        self.write_rest(table, from + 2, to, text);
    }
}

// The end of the line whose last word comes before a place of the table: a line feed in the place of the last space.
pub(crate) fn end_line(to: usize, text: &mut [u8])
    requires { (0 < to) × (5 * to ≤ length text.old) }
    ensures { text.new ≡ set text.old (5 * to - 1) line_feed }
{
    text[5 * to - 1] = b'\n';
}
