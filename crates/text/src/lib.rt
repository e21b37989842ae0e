// Reads lines of hexadecimal words into a lent table, one frame a line.
#![tactic(auto)]

ghost use Rattle.std.specs.Prelude.{◌≡◌, ◌≤◌, List, ℕ, length, drop};
ghost use Rattle.text.specs.Reader.{read_text};
ghost use Rattle.text.specs.Answer.{text_answer, text_answer_of, table_after};
ghost use Rattle.text.specs.Internal.Scan.{limit_of};
ghost use Rattle.text.specs.Internal.Blocks.{rest_read, rest_answer};

mod digits;
mod line;
mod rules;

use circuit::Refusal;
use digits::Codes;
use line::Block;
use rules::Lengths;

// The text read block by block: how many words, or the first rule broken and the line, as the refusal's frame. The words of the
// lines that break no rule are stored, up to the first line that breaks one.
pub fn read(text: &[u8], table: &mut [u16]) -> Result<usize, Refusal>
    ensures answered { text_answer result ≡ text_answer_of text.now (length table.old) }
    ensures stored { table.new ≡ table_after (read_text text.now (length table.old)) table.old }
{
    let codes = Codes::new();
    let room = table.len().min(circuit::TABLE_WORDS);
    let d = rules::head(&codes, text, room)?;
    table[0] = 0;
    table[1] = d;
    read_frames(&codes, &text[10..], d, room, table)
}

// The lines behind the first, whose two words the table has already; at most `room` words are stored. What the table then holds is
// told of every table that may have been lent: what stood in its first two words does not matter.
fn read_frames(
    codes: &Codes,
    mut text: &[u8],
    d: u16,
    room: usize,
    table: &mut [u16],
) -> Result<usize, Refusal>
    requires { (room ≡ limit_of (length table.old)) × (2 ≤ room) × (d ≤ 8) }
    ensures answered { text_answer result ≡ rest_answer d table.old text.now }
    ensures stored { (lent : List ℕ) → drop 2 lent ≡ drop 2 table.old → table.new ≡ table_after (rest_read d table.old text.now) lent }
{
    let lengths = Lengths::new(d);
    let mut block = Block::new();
    let mut line: usize = 1;
    let mut stored: usize = 2;
    // a turn takes as many lines as a block holds
    while !text.is_empty() {
        block.split(codes, text);
        let taken = block.taken(&lengths, room - stored);
        if taken == 0 {
            // the line here breaks a rule, and none of its block's words are stored
            let broken = lengths.first(codes, text, room - stored);
            return Err(Refusal {
                rule: broken.unwrap_err(),
                frame: line,
                word: 0,
            });
        }
        let words = block.words(taken);
        line::store(words, table, stored);
        text = &text[5 * words.len()..];
        line += taken;
        stored += words.len();
    }
    Ok(stored)
}
