// A frame added to the circuit so far.
ghost use Rattle.std.specs.Prelude.{◌≡◌};
ghost use Rattle.circuit.specs.Refusals.{refusal};
ghost use Rattle.checker.specs.Internal.Adding.{accepted_by, head_alone, numbers, with_frame, Bounded, Fitting, FrameOf, Adds};

use super::forms::Spot;
use super::notes::stage_shown;
use super::span::Span;
use super::{Accepted, forms};
use circuit::Refusal;
use frames::kinds::{Form, Shape};

// The circuit so far: the number of frames with HEAD, of wires, of random bits, the stages of INs and OUTs, and the number of INs.
#[derive(Clone, Copy)]
pub struct Tally {
    pub frames: usize,
    pub wires: usize,
    pub randoms: usize,
    pub span: Span,
    pub inputs: usize,
}

impl Tally {
    // HEAD by itself.
    pub(crate) fn head_alone() -> Self
        ensures { result ≡ head_alone }
    {
        Tally {
            frames: 1,
            wires: 0,
            randoms: 0,
            span: Span::none(),
            inputs: 0,
        }
    }

    // With one frame more: so many wires, random bits and INs.
    fn grown(self, wires: usize, randoms: usize, inputs: usize, span: Span) -> Tally
        requires { Fitting self (numbers wires randoms inputs) }
        ensures { result ≡ with_frame self (numbers wires randoms inputs) span }
    {
        Tally {
            frames: self.frames + 1,
            wires: self.wires + wires,
            randoms: self.randoms + randoms,
            span,
            inputs: self.inputs + inputs,
        }
    }

    // The next frame refused, at a spot.
    pub(crate) fn refused(self, spot: Spot) -> Refusal
        ensures { result ≡ refusal spot.rule self.frames spot.word }
    {
        Refusal {
            rule: spot.rule,
            frame: self.frames,
            word: spot.word,
        }
    }

    // The answer, once all frames are counted.
    pub(crate) fn answer(self) -> Accepted
        ensures { result ≡ accepted_by self }
    {
        Accepted {
            wires: self.wires,
            randoms: self.randoms,
            latency: self.span.latency(),
            inputs: self.inputs,
        }
    }
}

// The frame judged by its form, and added. (No HEAD comes here: rule 5 refuses it before.) What a form adds to the counts is
// written out in its arm, so that the loop's tail stays short for gates.
pub(crate) fn add(
    tally: Tally,
    shape: Shape,
    d: u16,
    ops: &[u16],
    notes: &mut [u16],
) -> Result<Tally, Spot>
    requires { Bounded tally notes.old × FrameOf shape d ops.now }
    ensures { Adds tally shape d ops.now notes.old notes.new result }
{
    let n = d as usize;
    let wires = tally.wires;
    let span = tally.span;
    match shape.form {
        Form::ShareCount => Ok(tally.grown(0, 0, 0, span)),
        Form::Stage => {
            let stage = ops[0];
            forms::stage(stage, n, wires, notes)?;
            Ok(tally.grown(n, 0, 1, span.with_input(stage)))
        }
        Form::Constant => {
            forms::constant(ops[0], ops[1], ops[2], n, wires, notes)?;
            Ok(tally.grown(1, 0, 0, span))
        }
        Form::Sum => {
            forms::sum(ops[0], ops[1], wires, notes)?;
            Ok(tally.grown(1, 0, 0, span))
        }
        Form::Copy { after } => {
            forms::copy(ops[0], after as usize, wires, notes)?;
            Ok(tally.grown(1, 0, 0, span))
        }
        Form::Product => {
            forms::product(shape.wires, n, tally.randoms, ops, wires, notes)?;
            Ok(tally.grown(shape.wires, shape.randoms, 0, span))
        }
        Form::Refresh => {
            forms::refresh(shape.wires, n, tally.randoms, ops, wires, notes)?;
            Ok(tally.grown(shape.wires, shape.randoms, 0, span))
        }
        Form::Row => {
            let stage = stage_shown(notes, wires, ops[0]);
            forms::row(ops, stage, wires, notes)?;
            Ok(tally.grown(0, 0, 0, span.with_output(stage)))
        }
    }
}
