// Counts, over all sharings of two sets of secret bits and all tapes, how often the wires that probes read have each combination of
// values in an accepted circuit.
#![tactic(auto)]

ghost use Rattle.std.specs.Prelude.{◌≡◌, length};
ghost use Rattle.circuit.specs.Rules.{checked};
ghost use Rattle.circuit.specs.Answer.{notes_after};
ghost use Rattle.semantics.specs.Calls.{Accepts, circuit_of};
ghost use Rattle.counting.specs.Counting.{count_answer_of, count_answer, counts_after, AddUp, SameColumns};

mod enumeration;
mod judge;
mod lanes;
mod linear;
mod listing;
mod numbers;
mod pairs;
mod plan;
mod prepare;
mod read;
mod read_wires;
mod tallies;
mod tally;
mod variables;

use circuit::{Refusal, Rule};

// What a call that is accepted tells: how many wires are read, how many combinations of values they have, and how many pairs of a
// sharing and a tape there are for a set of secret bits.
#[derive(Clone, Copy, Debug, PartialEq, Eq)]
pub struct Counted {
    pub read: usize,
    pub combinations: usize,
    pub pairs: usize,
}

// Checks a table, then counts, for each combination of the values of the wires that the probes read, the pairs of a sharing and a
// tape that show it, under the first set of secret bits and under the second. A refusal leaves the counts as found.
pub fn count(
    table: &[u16],
    notes: &mut [u16],
    secrets: &[u8],
    probes: &[u16],
    counts: &mut [u32],
) -> Result<Counted, Refusal>
    ensures answered { count_answer_of result ≡ count_answer table.now notes.old secrets.now probes.now counts.old }
    ensures noted { notes.new ≡ notes_after (checked table.now (length notes.old)).circuit notes.old }
    ensures listed { counts.new ≡ counts_after table.now notes.old secrets.now probes.now counts.old }
    ensures add_up { Accepts table.now notes.old → AddUp (circuit_of table.now notes.old) probes.now }
    ensures same_columns { Accepts table.now notes.old → SameColumns (circuit_of table.now notes.old) probes.now }
{
    let room = counts.len();
    let accepted = judge::judge(table, notes, secrets, probes, room)?;
    let list = read::list_read(table, accepted.wires, probes);
    let Some(read) = list.as_slice() else {
        return Err(Refusal::of_call(Rule::ReadWires, 0));
    };
    let pairs = tally::list_counts(table, secrets, accepted, read, counts);
    Ok(Counted {
        read: read.len(),
        combinations: numbers::power(read.len()),
        pairs,
    })
}
