// Writes an accepted table as lines of hexadecimal words, one frame a line: the text that the reader reads as this table.
#![tactic(auto)]

ghost use Rattle.std.specs.Prelude.{◌≡◌, ◌*◌, ◌≤◌, length, drop};
ghost use Rattle.std.proofs.lemmas.List.Edits.{sets};
ghost use Rattle.circuit.specs.Lists.{nth, overwrite};
ghost use Rattle.circuit.specs.Rules.{checked};
ghost use Rattle.circuit.specs.Answer.{notes_after};
ghost use Rattle.semantics.specs.Calls.{Accepts};
ghost use Rattle.text.specs.Answer.{text_answer};
ghost use Rattle.gadgets.specs.Internal.Accepting.{AcceptedTable};
ghost use Rattle.writer.specs.Writer.{lines_from, text_of, write_answer, text_after, ReadsBack, OnlyText};

mod line;

use circuit::{Refusal, Rule};
use frames::randoms::random_bits;
use frames::walk::Walk;
use line::Pairs;

// The lines of an accepted table's frames behind HEAD, by the walk over them.
fn write_frames(pairs: &Pairs, table: &[u16], text: &mut [u8])
    requires { AcceptedTable table.now × (5 * length table.now ≤ length text.old) }
    ensures { text.new ≡ sets text.old 10 (lines_from (nth table.now 1) 0 (drop 2 table.now)) }
{
    let d = table[1];
    let randoms = random_bits(d);
    let mut walk = Walk { d, at: 2 };
    // an accepted table has a frame at each place of the walk, up to its end
    while let Ok(Some(next)) = walk.step(table, randoms) {
        pairs.write_words(table, walk.at, next.walk.at, text);
        line::end_line(next.walk.at, text);
        walk = next.walk;
    }
}

// The text of an accepted table: HEAD's line, then those of the frames behind it.
fn write_text(table: &[u16], text: &mut [u8])
    requires { AcceptedTable table.now × (5 * length table.now ≤ length text.old) }
    ensures { text.new ≡ overwrite (text_of table.now) text.old }
{
    let pairs = Pairs::new();
    pairs.write_words(table, 0, 2, text);
    line::end_line(2, text);
    write_frames(&pairs, table, text);
}

// Checks a table, then writes its text. A refusal leaves the text as found. The last two promises say what the text is good for:
// the reader accepts it as this very table, and no other text as it.
pub fn write(table: &[u16], notes: &mut [u16], text: &mut [u8]) -> Result<usize, Refusal>
    ensures answered { text_answer result ≡ write_answer table.now notes.old text.old }
    ensures noted { notes.new ≡ notes_after (checked table.now (length notes.old)).circuit notes.old }
    ensures written { text.new ≡ text_after table.now notes.old text.old }
    ensures reads_back { Accepts table.now notes.old → ReadsBack table.now }
    ensures only_text { OnlyText table.now }
{
    checker::check(table, notes)?;
    let bytes = 5 * table.len();
    if text.len() < bytes {
        return Err(Refusal::of_call(Rule::TextRoom, 0));
    }
    write_text(table, text);
    Ok(bytes)
}
