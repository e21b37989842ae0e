// Rules 15 to 19: a call judged by them, 18 and 19 each by the first place where it is broken, and how a call's own refusals are answered.
ghost use Rattle.std.specs.Prelude.{◌≡◌, min, position, nat_lt, nat_le};
ghost use Rattle.circuit.specs.Answer.{refused};
ghost use Rattle.circuit.specs.Refusals.{number_of};
ghost use Rattle.checker.specs.Answers.{answer_of};
ghost use Rattle.evaluation.specs.Internal.Refusing.{OverFirst, MissingFirst};
ghost use Rattle.evaluation.specs.Internal.Calling.{Judged};

use checker::Accepted;
use circuit::{Refusal, Rule, WIRES};
use reach::bytes::largest;

// A refusal of the call, at a word.
pub fn refusal(rule: Rule, word: usize) -> Result<Accepted, Refusal>
    ensures { answer_of result ≡ refused (number_of rule) 0 word }
{
    Err(Refusal::of_call(rule, word))
}

// The first byte over 1. The largest is looked at first, many bytes at once: mostly there is none.
pub fn first_over(bytes: &[u8]) -> Option<usize>
    ensures found { result ≡ position (λ byte. nat_lt 1 byte) bytes.now }
    ensures judged { OverFirst bytes.now result }
{
    if largest(bytes) <= 1 {
        return None;
    }
    bytes.iter().position(|byte| 1 < *byte)
}

// The first probe on no wire, of so many.
pub fn first_missing(probes: &[u16], wires: usize) -> Option<usize>
    ensures found { result ≡ position (λ wire. nat_le wires wire) probes.now }
    ensures judged { MissingFirst probes.now wires result }
{
    probes.iter().position(|wire| wires <= *wire as usize)
}

// The smaller of two numbers.
pub fn smaller(one: usize, other: usize) -> usize
    ensures { result ≡ min one other }
{
    one.min(other)
}

// A call judged: by the checker, then by rules 15 to 19, the shortest buffer having so many bytes.
pub fn judge(
    table: &[u16],
    notes: &mut [u16],
    shares: &[u8],
    tape: &[u8],
    probes: &[u16],
    room: usize,
) -> Result<Accepted, Refusal>
    ensures { Judged table.now notes.old shares.now tape.now probes.now room notes.new result }
{
    let answer = checker::check(table, notes);
    let Ok(
        Accepted {
            wires,
            randoms,
            inputs,
            ..
        },
    ) = answer
    else {
        return answer;
    };
    if shares.len() != inputs * table[1] as usize {
        return refusal(Rule::ShareLength, 0);
    }
    if tape.len() != randoms {
        return refusal(Rule::TapeLength, 0);
    }
    if room < WIRES {
        return refusal(Rule::SheetLength, 0);
    }
    if let Some(share) = first_over(shares) {
        return refusal(Rule::Bit, share);
    }
    if let Some(drawn) = first_over(tape) {
        return refusal(Rule::Bit, shares.len() + drawn);
    }
    if let Some(probe) = first_missing(probes, wires) {
        return refusal(Rule::Probe, probe);
    }
    answer
}
