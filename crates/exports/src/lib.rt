// The calls under C names, for programs in other languages. A slice passes as a pointer and a length. The result is 0 where
// accepted, and the numbers are wires, random bits and latency (of a text: words read or bytes written, and 0; of counts: wires
// read, combinations and pairs); else it is the number of the first rule broken, and the numbers are frame, word and 0 (of a text
// that is read: line and word).
#![tactic(auto)]

ghost use Rattle.std.specs.Prelude.{◌≡◌, ℕ, [], ◌∷◌, length};
ghost use Rattle.circuit.specs.Rules.{checked};
ghost use Rattle.circuit.specs.Answer.{verdict_of, notes_after};
ghost use Rattle.semantics.specs.Calls.{written, call_rule, call_answer, call_notes, value_bytes, reading_bytes};
ghost use Rattle.semantics.specs.Clock.{clock_answer, values_after, bank_after};
ghost use Rattle.text.specs.Reader.{read_text};
ghost use Rattle.text.specs.Answer.{text_answer_of, table_after};
ghost use Rattle.writer.specs.Writer.{write_answer, text_after};
ghost use Rattle.plain.specs.Sharings.{sharings_answer};
ghost use Rattle.counting.specs.Counting.{count_answer, counts_after};
ghost use Rattle.exports.specs.Numbers.{AnswerIs, TextAnswerIs, CountAnswerIs};
ghost use Rattle.exports.specs.Internal.{Gives};

use checker::Accepted;
use circuit::Refusal;
use counting::Counted;

// The three numbers that an accepted answer has under its C name.
trait Numbers {
    ghost first: { Self → ℕ };

    ghost second: { Self → ℕ };

    ghost third: { Self → ℕ };

    fn numbers(self) -> (usize, usize, usize)
        ensures { (result.0 ≡ first self) × (result.1 ≡ second self) × (result.2 ≡ third self) };
}

// Of a circuit: wires, random bits, latency.
impl Numbers for Accepted {
    ghost first = { λ x. x.wires };

    ghost second = { λ x. x.randoms };

    ghost third = { λ x. x.latency };

    fn numbers(self) -> (usize, usize, usize) {
        (self.wires, self.randoms, self.latency)
    }
}

// Of a text: words read or bytes written, and 0.
impl Numbers for usize {
    ghost first = { λ n. n };

    ghost second = { λ _. 0 };

    ghost third = { λ _. 0 };

    fn numbers(self) -> (usize, usize, usize) {
        (self, 0, 0)
    }
}

// Of counts: wires read, combinations, pairs of one set.
impl Numbers for Counted {
    ghost first = { λ x. x.read };

    ghost second = { λ x. x.combinations };

    ghost third = { λ x. x.pairs };

    fn numbers(self) -> (usize, usize, usize) {
        (self.read, self.combinations, self.pairs)
    }
}

// Puts an answer's numbers where the caller wants them, and gives the call's result.
fn put<T: Numbers>(answer: Result<T, Refusal>, a: &mut u64, b: &mut u64, c: &mut u64) -> u64
    ensures { Gives T.first T.second T.third answer result a.new b.new c.new }
{
    match answer {
        Ok(accepted) => {
            let (first, second, third) = accepted.numbers();
            *a = first as u64;
            *b = second as u64;
            *c = third as u64;
            0
        }
        Err(r) => {
            *a = r.frame as u64;
            *b = r.word as u64;
            *c = 0;
            r.number() as u64
        }
    }
}

// checker::check
#[unsafe(no_mangle)]
pub extern "C" fn masked_check(
    table: &[u16],
    notes: &mut [u16],
    a: &mut u64,
    b: &mut u64,
    c: &mut u64,
) -> u64
    ensures answered { AnswerIs (verdict_of table.now (length notes.old)) result a.new b.new c.new }
    ensures noted { notes.new ≡ notes_after (checked table.now (length notes.old)).circuit notes.old }
{
    let answer = checker::check(table, notes);
    put(answer, a, b, c)
}

// text::read
#[unsafe(no_mangle)]
pub extern "C" fn masked_read_text(text: &[u8], table: &mut [u16], a: &mut u64, b: &mut u64) -> u64
    ensures answered { TextAnswerIs (text_answer_of text.now (length table.old)) result a.new b.new }
    ensures stored { table.new ≡ table_after (read_text text.now (length table.old)) table.old }
{
    let answer = text::read(text, table);
    put(answer, a, b, &mut 0)
}

// writer::write
#[unsafe(no_mangle)]
pub extern "C" fn masked_write_text(
    table: &[u16],
    notes: &mut [u16],
    text: &mut [u8],
    a: &mut u64,
    b: &mut u64,
    c: &mut u64,
) -> u64
    ensures answered { TextAnswerIs (write_answer table.now notes.old text.old) result a.new b.new }
    ensures third { c.new ≡ 0 }
    ensures noted { notes.new ≡ notes_after (checked table.now (length notes.old)).circuit notes.old }
    ensures written { text.new ≡ text_after table.now notes.old text.old }
{
    let answer = writer::write(table, notes, text);
    // written first: where a caller in C lends one place for two of the numbers, the other one stays there
    *c = 0;
    put(answer, a, b, &mut 0)
}

// evaluation::evaluate
#[unsafe(no_mangle)]
pub extern "C" fn masked_evaluate(
    table: &[u16],
    notes: &mut [u16],
    shares: &[u8],
    tape: &[u8],
    values: &mut [u8],
    a: &mut u64,
    b: &mut u64,
    c: &mut u64,
) -> u64
    ensures answered { AnswerIs (call_answer table.now notes.old shares.now tape.now (values.old ∷ []) []) result a.new b.new c.new }
    ensures noted { notes.new ≡ call_notes table.now notes.old shares.now tape.now }
    ensures valued { values.new ≡ written (call_rule table.now notes.old shares.now tape.now (values.old ∷ []) [])
        (value_bytes table.now notes.old shares.now tape.now) values.old }
{
    let answer = evaluation::evaluate(table, notes, shares, tape, values);
    put(answer, a, b, c)
}

// evaluation::read_probes
#[unsafe(no_mangle)]
pub extern "C" fn masked_read_probes(
    table: &[u16],
    notes: &mut [u16],
    shares: &[u8],
    tape: &[u8],
    values: &mut [u8],
    probes: &[u16],
    reading: &mut [u8],
    a: &mut u64,
    b: &mut u64,
    c: &mut u64,
) -> u64
    ensures answered { AnswerIs (call_answer table.now notes.old shares.now tape.now (values.old ∷ reading.old ∷ []) probes.now) result a.new b.new c.new }
    ensures noted { notes.new ≡ call_notes table.now notes.old shares.now tape.now }
    ensures valued { values.new ≡ written (call_rule table.now notes.old shares.now tape.now (values.old ∷ reading.old ∷ []) probes.now)
        (value_bytes table.now notes.old shares.now tape.now) values.old }
    ensures shown { reading.new ≡ written (call_rule table.now notes.old shares.now tape.now (values.old ∷ reading.old ∷ []) probes.now)
        (reading_bytes table.now notes.old shares.now tape.now probes.now) reading.old }
{
    let answer = evaluation::read_probes(table, notes, shares, tape, values, probes, reading);
    put(answer, a, b, c)
}

// clock::step
#[unsafe(no_mangle)]
pub extern "C" fn masked_clock(
    table: &[u16],
    notes: &mut [u16],
    shares: &[u8],
    tape: &[u8],
    values: &mut [u8],
    bank: &mut [u8],
    a: &mut u64,
    b: &mut u64,
    c: &mut u64,
) -> u64
    ensures answered { AnswerIs (clock_answer table.now notes.old shares.now tape.now values.old bank.old) result a.new b.new c.new }
    ensures noted { notes.new ≡ call_notes table.now notes.old shares.now tape.now }
    ensures valued { values.new ≡ values_after table.now notes.old shares.now tape.now values.old bank.old }
    ensures banked { bank.new ≡ bank_after table.now notes.old shares.now tape.now values.old bank.old }
{
    let answer = clock::step(table, notes, shares, tape, values, bank);
    put(answer, a, b, c)
}

// plain::check_sharings
#[unsafe(no_mangle)]
pub extern "C" fn masked_check_sharings(
    table: &[u16],
    notes: &mut [u16],
    a: &mut u64,
    b: &mut u64,
    c: &mut u64,
) -> u64
    ensures answered { AnswerIs (sharings_answer table.now notes.old) result a.new b.new c.new }
    ensures noted { notes.new ≡ notes_after (checked table.now (length notes.old)).circuit notes.old }
{
    let answer = plain::check_sharings(table, notes);
    put(answer, a, b, c)
}

// counting::count
#[unsafe(no_mangle)]
pub extern "C" fn masked_count(
    table: &[u16],
    notes: &mut [u16],
    secrets: &[u8],
    probes: &[u16],
    counts: &mut [u32],
    a: &mut u64,
    b: &mut u64,
    c: &mut u64,
) -> u64
    ensures answered { CountAnswerIs (count_answer table.now notes.old secrets.now probes.now counts.old) result a.new b.new c.new }
    ensures noted { notes.new ≡ notes_after (checked table.now (length notes.old)).circuit notes.old }
    ensures listed { counts.new ≡ counts_after table.now notes.old secrets.now probes.now counts.old }
{
    let answer = counting::count(table, notes, secrets, probes, counts);
    put(answer, a, b, c)
}
