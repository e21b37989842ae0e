// Decides whether a table of words is a circuit that keeps rules 1 to 14 and 22, and writes into the notes what looking each
// wire up tells: its label, its stage and whether it is registered.
#![tactic(auto)]

ghost use Rattle.std.specs.Prelude.{◌≡◌, Ok, length};
ghost use Rattle.circuit.specs.Rules.{checked};
ghost use Rattle.checker.specs.Answers.{answer_of, InputsAre};
ghost use Rattle.circuit.specs.Answer.{verdict_of, notes_after};
ghost use Rattle.checker.specs.Internal.Adding.{head_answer};

mod forms;
mod frame;
pub mod notes;
mod span;

use circuit::{Refusal, Rule};
use forms::Spot;
use frame::Tally;
use frames::randoms::random_bits;
use frames::walk::Walk;

// What an accepted table's answer tells: the numbers of wires and random bits, the latency and the number of INs.
#[derive(Clone, Copy, Debug, PartialEq, Eq)]
pub struct Accepted {
    pub wires: usize,
    pub randoms: usize,
    pub latency: usize,
    pub inputs: usize,
}

// The first of rules 1 to 4 that a table and notes of so many words break.
#[tactic(auto, using(std::proofs::lemmas::Bool::Decides::nat_tests))]
fn head_rule(table: &[u16], room: usize) -> Result<(), Refusal>
    ensures { result ≡ head_answer table.now room }
{
    if circuit::TABLE_WORDS < table.len() {
        return Err(Refusal::of_call(Rule::TableLength, 0));
    }
    if room < circuit::NOTES_WORDS {
        return Err(Refusal::of_call(Rule::NotesLength, 0));
    }
    if table.len() < 2 || table[0] != 0 {
        return Err(Refusal::of_call(Rule::Head, 0));
    }
    if table[1] < 2 || 8 < table[1] {
        return Err(Refusal::of_call(Rule::ShareCount, 1));
    }
    Ok(())
}

// The frames of a table that keeps rules 1 to 4, one after the other, up to the first that breaks a rule.
fn check_frames(table: &[u16], notes: &mut [u16]) -> Result<Accepted, Refusal>
    requires { head_answer table.now (length notes.old) ≡ Ok tt }
    ensures answered { answer_of result ≡ verdict_of table.now (length notes.old) }
    ensures noted { notes.new ≡ notes_after (checked table.now (length notes.old)).circuit notes.old }
    ensures inputs { InputsAre result (checked table.now (length notes.old)).circuit.inputs }
{
    let d = table[1];
    let randoms = random_bits(d);
    let mut walk = Walk { d, at: 2 };
    let mut tally = Tally::head_alone();
    // a while, since each frame's words tell where the next one begins
    while let Some(next) = walk
        .step(table, randoms)
        .map_err(|rule| tally.refused(Spot { rule, word: 0 }))?
    {
        let ops = walk.operands(table);
        tally = frame::add(tally, next.shape, d, ops, notes).map_err(|spot| tally.refused(spot))?;
        walk = next.walk;
    }
    Ok(tally.answer())
}

// The table checked frame by frame, in one pass. Rules 1 to 4 leave the notes untouched.
pub fn check(table: &[u16], notes: &mut [u16]) -> Result<Accepted, Refusal>
    ensures answered { answer_of result ≡ verdict_of table.now (length notes.old) }
    ensures noted { notes.new ≡ notes_after (checked table.now (length notes.old)).circuit notes.old }
    ensures inputs { InputsAre result (checked table.now (length notes.old)).circuit.inputs }
{
    head_rule(table, notes.len())?;
    check_frames(table, notes)
}
