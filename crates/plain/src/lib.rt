// Says whether the frames of an accepted table make whole sharings. Then the table has a plain circuit, whose bits are the added shares.
#![tactic(auto)]

ghost use Rattle.std.specs.Prelude.{◌≡◌, length};
ghost use Rattle.circuit.specs.Rules.{pass, checked};
ghost use Rattle.circuit.specs.Answer.{notes_after};
ghost use Rattle.semantics.specs.Calls.{circuit_of};
ghost use Rattle.checker.specs.Answers.{answer_of};
ghost use Rattle.plain.specs.Sharings.{whole_of, sharings_rule, sharings_answer};
ghost use Rattle.plain.specs.Plain.{IsPlainOf};

use checker::Accepted;
use circuit::Refusal;

mod sharing;

// Checks a table, then its sharings: 26, which is the no, at the first frame, or the first frame of a run, that fits none. The last
// promise says what a yes is good for: the added shares are the plain circuit's bits, for all shares and tapes.
pub fn check_sharings(table: &[u16], notes: &mut [u16]) -> Result<Accepted, Refusal>
    ensures answered { answer_of result ≡ sharings_answer table.now notes.old }
    ensures noted { notes.new ≡ notes_after (checked table.now (length notes.old)).circuit notes.old }
    ensures plain { sharings_rule table.now notes.old ≡ pass → IsPlainOf table.now (circuit_of table.now notes.old) (whole_of table.now).plain }
{
    let accepted = checker::check(table, notes)?;
    sharing::judge(table, notes)?;
    Ok(accepted)
}
