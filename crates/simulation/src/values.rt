// The value of each wire, frame by frame: a bit, in a byte of its own.
ghost use Rattle.std.specs.Prelude.{◌≡◌, cond, List, ℕ, ◌+◌, ◌*◌, ◌^◌, ◌≤◌, ◌<◌, length};
ghost use Rattle.std.specs.Int.Bits.{bit_xor};
ghost use Rattle.circuit.specs.Lists.{nth};
ghost use Rattle.circuit.specs.Kinds.{pairs};
ghost use Rattle.circuit.specs.Circuit.{is_set};
ghost use Rattle.gadgets.specs.Internal.Frames.{frame_wires, Small, FrameEarly, FrameSupplied};
ghost use Rattle.simulation.specs.Internal.Filling.{Fills, FrameValues};
ghost use Rattle.simulation.specs.Internal.Evaluating.{Evaluable, Evaluates};
ghost use Rattle.simulation.specs.Internal.Walked.{FilledTo, Other, GateWritten, GatesFilled};

use super::gadget;
use frames::kinds::Shape;
use frames::randoms::random_bits;
use frames::walk::{Frame, Gate, Walk};
use gadgets::places::Gadget;

// A word as a bit.
fn bit(word: u16) -> u8
    ensures { result ≡ cond (is_set word) 1 0 }
{
    u8::from(word != 0)
}

// The wire of a CON.
pub fn constant(values: &mut [u8], first: usize, word: u16)
    requires { first + 1 ≤ length values.old }
    ensures { Fills (λ v. v first ≡ cond (is_set word) 1 0) first (first + 1) values.old values.new }
{
    values[first] = bit(word);
}

// The wire of an XOR.
pub fn sum(values: &mut [u8], first: usize, one: u16, other: u16)
    requires { (first + 1 ≤ length values.old) × (one < first) × (other < first) }
    ensures { Fills (λ v. v first ≡ bit_xor (v one) (v other)) first (first + 1) values.old values.new }
{
    values[first] = values[one as usize] ^ values[other as usize];
}

// The wire of a NOT.
pub fn inverse(values: &mut [u8], first: usize, wire: u16)
    requires { (first + 1 ≤ length values.old) × (wire < first) }
    ensures { Fills (λ v. v first ≡ bit_xor 1 (v wire)) first (first + 1) values.old values.new }
{
    values[first] = 1 ^ values[wire as usize];
}

// The wire of a REG.
fn register(values: &mut [u8], first: usize, wire: u16)
    requires { (first + 1 ≤ length values.old) × (wire < first) }
    ensures { Fills (λ v. v first ≡ v wire) first (first + 1) values.old values.new }
{
    values[first] = values[wire as usize];
}

// The wire of an XOR, a NOT or a REG, behind so many wires. The answer is whether the frame is one of these.
fn write_gate(values: &mut [u8], frame: Frame, first: usize) -> bool
    requires { (d : ℕ) × (ops : List ℕ) × FrameEarly frame d first ops × (first + frame_wires frame d ≤ length values.old) }
    ensures { GateWritten frame first values.old values.new result }
{
    match frame {
        Frame::Gate(
            Gate::Xor {
                first: one,
                second: other,
            },
        ) => sum(values, first, one, other),
        Frame::Gate(Gate::Not { wire }) => inverse(values, first, wire),
        Frame::Gate(Gate::Reg { wire }) => register(values, first, wire),
        _ => return false,
    }
    true
}

// What comes before a frame: so many wires, shares and random bits.
#[derive(Clone, Copy)]
pub struct Before {
    pub first: usize,
    pub from: usize,
    pub used: usize,
}

impl Before {
    // The same of the frame behind one of this shape, where each input has d shares.
    pub fn behind(self, shape: Shape, d: usize) -> Before
        requires { (self.first + shape.wires < 2 ^ 64) × (self.from + d * shape.inputs < 2 ^ 64) × (self.used + shape.randoms < 2 ^ 64) × (shape.wires ≤ 1 → (shape.inputs ≡ 0) × (shape.randoms ≡ 0)) }
        ensures { (result.first ≡ self.first + shape.wires) × (result.from ≡ self.from + d * shape.inputs) × (result.used ≡ self.used + shape.randoms) }
    {
        let first = self.first + shape.wires;
        // frames of one wire or none take neither shares nor random bits
        if shape.wires <= 1 {
            return Before { first, ..self };
        }
        Before {
            first,
            from: self.from + d * shape.inputs,
            used: self.used + shape.randoms,
        }
    }
}

// The wires of another frame. A gadget takes so many random bits.
fn write_frame(
    values: &mut [u8],
    frame: Frame,
    d: usize,
    randoms: u16,
    before: Before,
    ops: &[u16],
    shares: &[u8],
    tape: &[u8],
)
    requires { Small before.first d × (before.first + frame_wires frame d ≤ length values.old) × FrameEarly frame d before.first ops.now × FrameSupplied frame d before.from before.used (length shares.now) (length tape.now) × (randoms ≡ pairs d) × Other frame }
    ensures { Fills (FrameValues frame 1 d before.first before.from before.used ops.now shares.now tape.now) before.first (before.first + frame_wires frame d) values.old values.new }
{
    let Before { first, from, used } = before;
    let g = Gadget {
        d,
        pairs: randoms as usize,
        first,
        used,
    };
    match frame {
        Frame::Gate(Gate::In { .. }) => gadget::copy(values, first, shares, from, d),
        Frame::Gate(Gate::Con { value, .. }) => constant(values, first, value),
        Frame::Gate(_) => {}
        Frame::And => gadget::and(values, g, ops, tape),
        Frame::Ref => gadget::refresh(values, g, ops, tape),
    }
}

// The wires of each XOR, NOT and REG from a walk's place up to the first frame of another kind, with the walk there and the wires
// before it. These take neither shares nor random bits, and a loop of their own carries two numbers only.
fn fill_gates(
    table: &[u16],
    values: &mut [u8],
    start: Walk,
    wires: usize,
    randoms: u16,
) -> (Walk, usize)
    requires { (start.d ≡ nth table.now 1) × (randoms ≡ pairs (nth table.now 1)) × ((shares tape old : List ℕ) × (from used : ℕ) × FilledTo table.now shares tape old values.old start.at wires from used) }
    ensures { (result.0.d ≡ nth table.now 1) × (start.at ≤ result.0.at) × GatesFilled table.now values.old start.at wires values.new result.0.at result.1 }
{
    let mut walk = start;
    let mut first = wires;
    // an accepted table has a frame at each place of the walk, up to its end
    while let Ok(Some(next)) = walk.step(table, randoms) {
        if !write_gate(values, next.frame, first) {
            break;
        }
        first += next.shape.wires;
        walk = next.walk;
    }
    (walk, first)
}

// The values of an accepted table's wires. The gates behind a gate are filled in by a loop of their own.
pub fn fill(table: &[u16], shares: &[u8], tape: &[u8], values: &mut [u8])
    requires { Evaluable table.now shares.now tape.now (length values.old) }
    ensures { Evaluates table.now shares.now tape.now values.old values.new }
{
    let d = table[1];
    let n = d as usize;
    let randoms = random_bits(d);
    let mut walk = Walk { d, at: 2 };
    let mut before = Before {
        first: 0,
        from: 0,
        used: 0,
    };
    // an accepted table has a frame at each place of the walk, up to its end
    while let Ok(Some(next)) = walk.step(table, randoms) {
        let shape = next.shape;
        if write_gate(values, next.frame, before.first) {
            let first = before.first + shape.wires;
            (walk, before.first) = fill_gates(table, values, next.walk, first, randoms);
        } else {
            let ops = walk.operands(table);
            write_frame(values, next.frame, n, randoms, before, ops, shares, tape);
            before = before.behind(shape, n);
            walk = next.walk;
        }
    }
}
