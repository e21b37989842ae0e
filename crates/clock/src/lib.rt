// Runs an accepted circuit clock by clock: a register shows what its operand showed one clock before, which a bank keeps.
#![tactic(auto)]

ghost use Rattle.std.specs.Prelude.{◌≡◌};
ghost use Rattle.checker.specs.Answers.{answer_of};
ghost use Rattle.semantics.specs.Calls.{Accepts, circuit_of, call_notes};
ghost use Rattle.semantics.specs.Clock.{clock_answer, values_after, bank_after, Pipelined, RegistersAlone, IsClock, BankStays};

use checker::Accepted;
use circuit::{Refusal, Rule};
use evaluation::rules;

mod gadget;
mod running;

// Writes what each wire of an accepted circuit shows on one clock, from the shares and the tape of that clock, and into the bank what each
// register shows on the next. A refusal is no clock: it leaves the values and the bank as found.
pub fn step(
    table: &[u16],
    notes: &mut [u16],
    shares: &[u8],
    tape: &[u8],
    values: &mut [u8],
    bank: &mut [u8],
) -> Result<Accepted, Refusal>
    ensures answered { answer_of result ≡ clock_answer table.now notes.old shares.now tape.now values.old bank.old }
    ensures noted { notes.new ≡ call_notes table.now notes.old shares.now tape.now }
    ensures valued { values.new ≡ values_after table.now notes.old shares.now tape.now values.old bank.old }
    ensures banked { bank.new ≡ bank_after table.now notes.old shares.now tape.now values.old bank.old }
    ensures pipelined { Accepts table.now notes.old → Pipelined table.now (circuit_of table.now notes.old) }
    ensures registers_alone { RegistersAlone table.now notes.old shares.now tape.now values.old bank.old }
    ensures is_clock { IsClock table.now notes.old values.old }
    ensures bank_stays { BankStays table.now notes.old shares.now tape.now values.old bank.old }
{
    let room = rules::smaller(values.len(), bank.len());
    let answer = rules::judge(table, notes, shares, tape, &[], room);
    let Ok(Accepted { wires, .. }) = answer else {
        return answer;
    };
    if let Some(register) = running::first_register_over(table, wires, shares, tape, bank) {
        return rules::refusal(Rule::Bit, shares.len() + tape.len() + register);
    }
    running::run(table, wires, shares, tape, values, bank);
    answer
}
