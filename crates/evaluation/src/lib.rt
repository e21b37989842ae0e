// Evaluates accepted circuits, and reads what probes on their wires show.
#![tactic(auto)]

ghost use Rattle.std.specs.Prelude.{◌≡◌, [], ◌∷◌};
ghost use Rattle.checker.specs.Answers.{answer_of};
ghost use Rattle.semantics.specs.Calls.{Accepts, circuit_of, written, call_rule, call_answer, call_notes, value_bytes, reading_bytes};
ghost use Rattle.semantics.specs.Values.{bits, values_of};
ghost use Rattle.semantics.specs.Counts.{EqualCounts};
ghost use Rattle.secrecy.specs.Gadgets.{Computes};

use checker::Accepted;
use circuit::{Refusal, WIRES};
use reach::readings;
use simulation::values;

pub mod rules;

// Writes the value of each wire of an accepted circuit, from its shares and its tape. A refusal leaves the values as found.
pub fn evaluate(
    table: &[u16],
    notes: &mut [u16],
    shares: &[u8],
    tape: &[u8],
    values: &mut [u8],
) -> Result<Accepted, Refusal>
    ensures answered { answer_of result ≡ call_answer table.now notes.old shares.now tape.now (values.old ∷ []) [] }
    ensures noted { notes.new ≡ call_notes table.now notes.old shares.now tape.now }
    ensures valued { values.new ≡ written (call_rule table.now notes.old shares.now tape.now (values.old ∷ []) [])
        (value_bytes table.now notes.old shares.now tape.now) values.old }
    ensures computes { Accepts table.now notes.old
        → Computes table.now (values_of (circuit_of table.now notes.old).wires (bits shares.now) (bits tape.now)) }
{
    let room = values.len();
    let answer = rules::judge(table, notes, shares, tape, &[], room);
    let Ok(_) = answer else {
        return answer;
    };
    values::fill(table, shares, tape, values);
    answer
}

// Writes the value of each wire of an accepted circuit, and what the probes read. A refusal leaves both buffers as found.
pub fn read_probes(
    table: &[u16],
    notes: &mut [u16],
    shares: &[u8],
    tape: &[u8],
    values: &mut [u8],
    probes: &[u16],
    reading: &mut [u8],
) -> Result<Accepted, Refusal>
    ensures answered { answer_of result ≡ call_answer table.now notes.old shares.now tape.now (values.old ∷ reading.old ∷ []) probes.now }
    ensures noted { notes.new ≡ call_notes table.now notes.old shares.now tape.now }
    ensures valued { values.new ≡ written (call_rule table.now notes.old shares.now tape.now (values.old ∷ reading.old ∷ []) probes.now)
        (value_bytes table.now notes.old shares.now tape.now) values.old }
    ensures shown { reading.new ≡ written (call_rule table.now notes.old shares.now tape.now (values.old ∷ reading.old ∷ []) probes.now)
        (reading_bytes table.now notes.old shares.now tape.now probes.now) reading.old }
    ensures secret { Accepts table.now notes.old
        → EqualCounts (circuit_of table.now notes.old) probes.now }
{
    let room = rules::smaller(values.len(), reading.len());
    let answer = rules::judge(table, notes, shares, tape, probes, room);
    let Ok(Accepted { wires, .. }) = answer else {
        return answer;
    };
    values::fill(table, shares, tape, values);
    let mut marks = [0u8; WIRES];
    readings::reach_stops(table, probes, &mut marks);
    readings::show(&marks, values, wires, reading);
    answer
}
