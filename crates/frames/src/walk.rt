// The walk over the frames of a table.
ghost use Rattle.std.specs.Prelude.{◌≡◌};
ghost use Rattle.circuit.specs.Lists.{nth};
ghost use Rattle.frames.specs.Walk.{shape_taking, operands_at, step_with};
ghost use Rattle.frames.specs.Internal.Framed.{gate_after, frame_in, framed_by};

use super::kinds;
use circuit::Rule;
use kinds::{Form, Shape};

// A gate, with its words. OUT's stay in the table.
#[derive(Clone, Copy)]
pub enum Gate {
    In { stage: u16 },
    Con { label: u16, value: u16, stage: u16 },
    Xor { first: u16, second: u16 },
    Not { wire: u16 },
    Reg { wire: u16 },
    Out,
}

// A frame is a gate or a gadget; a gadget's words stay in the table.
#[derive(Clone, Copy)]
pub enum Frame {
    Gate(Gate),
    And,
    Ref,
}

// The state of a walk: the number of shares, and where in the table the next frame begins.
#[derive(Clone, Copy)]
pub struct Walk {
    pub d: u16,
    pub at: usize,
}

// A frame that stands whole at a walk's place, what its kind decides, and the walk behind it.
#[derive(Clone, Copy)]
pub struct Next {
    pub frame: Frame,
    pub shape: Shape,
    pub walk: Walk,
}

// The word at a place of a part of the table; 0 past its end, as the definition's `nth` has it. (Whether the words are there is asked
// once, of the whole frame.)
fn word_at(words: &[u16], i: usize) -> u16
    ensures { result ≡ nth words.now i }
{
    if i < words.len() { words[i] } else { 0 }
}

// A frame of so many words after the kind, where the table has them, `rest` being the table after the kind word.
fn whole(frame: Frame, words: usize, rest: &[u16]) -> Option<Frame>
    ensures { result ≡ framed_by frame words rest.now }
{
    if rest.len() < words {
        None
    } else {
        Some(frame)
    }
}

// NOT, or REG, whose wire stands a stage later.
fn copying(after: u16, wire: u16) -> Gate
    ensures { result ≡ gate_after after wire }
{
    if after == 0 {
        Gate::Not { wire }
    } else {
        Gate::Reg { wire }
    }
}

// The frame of a form, from the table after the kind word. (No HEAD comes here: rule 5 refuses it before.) Each form asks for
// its words by itself, so that the compiler leads each from the kind's decision straight to what the frame is taken for.
fn frame_of(form: Form, words: usize, rest: &[u16]) -> Option<Frame>
    ensures { result ≡ framed_by (frame_in form rest.now) words rest.now }
{
    match form {
        Form::ShareCount => whole(Frame::Gate(Gate::Out), words, rest),
        Form::Stage => whole(
            Frame::Gate(Gate::In {
                stage: word_at(rest, 0),
            }),
            words,
            rest,
        ),
        Form::Constant => whole(
            Frame::Gate(Gate::Con {
                label: word_at(rest, 0),
                value: word_at(rest, 1),
                stage: word_at(rest, 2),
            }),
            words,
            rest,
        ),
        Form::Sum => {
            // the second word first: where it is there, so is the first, and no more is asked
            let second = word_at(rest, 1);
            let first = word_at(rest, 0);
            whole(Frame::Gate(Gate::Xor { first, second }), words, rest)
        }
        Form::Copy { after } => {
            let gate = copying(after, word_at(rest, 0));
            whole(Frame::Gate(gate), words, rest)
        }
        Form::Product => whole(Frame::And, words, rest),
        Form::Refresh => whole(Frame::Ref, words, rest),
        Form::Row => whole(Frame::Gate(Gate::Out), words, rest),
    }
}

impl Walk {
    // The words after the kind word at the walk's place, as a part of the table, as far as the table goes.
    pub fn operands(self, table: &[u16]) -> &[u16]
        ensures { result.now ≡ operands_at table.now self.d self.at }
    {
        let at = self.at;
        let n = table.len();
        if n <= at {
            return &table[n..n];
        }
        let shape = kinds::decide(table[at], self.d, 0);
        let words = shape.words;
        let start = at + 1;
        if n - start < words {
            return &table[start..n];
        }
        let end = start + words;
        &table[start..end]
    }

    // The frame at the walk's place, and the walk behind it, where a gadget takes so many random bits; none at the table's end; or
    // which of rules 5 and 6 the words there break. A loop that called it, and had it not in its own body, would take three times as long.
    #[inline(always)]
    #[tactic(auto, using(std::proofs::lemmas::Bool::Decides::nat_tests))]
    pub fn step(self, table: &[u16], randoms: u16) -> Result<Option<Next>, Rule>
        ensures { result ≡ step_with (shape_taking randoms self.d) table.now self.d self.at }
    {
        let at = self.at;
        let d = self.d;
        if table.len() <= at {
            return Ok(None);
        }
        let word = table[at];
        if word == 0 || 8 < word {
            return Err(Rule::Kind);
        }
        let start = at + 1;
        let rest = &table[start..];
        let shape = kinds::decide(word, d, randoms);
        let form = shape.form;
        let words = shape.words;
        let framed = frame_of(form, words, rest);
        let Some(frame) = framed else {
            return Err(Rule::WordCount);
        };
        let walk = Walk {
            d,
            at: start + words,
        };
        Ok(Some(Next { frame, shape, walk }))
    }
}
