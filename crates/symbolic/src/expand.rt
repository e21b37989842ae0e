// The wires of an accepted table as sums of variables, frame by frame.
ghost use Rattle.std.specs.Prelude.{◌≡◌, cond, ℕ, ◌+◌, ◌^◌, ◌≤◌, ◌<◌, length, replicate};
ghost use Rattle.circuit.specs.Limits.{wire_limit};
ghost use Rattle.circuit.specs.Lists.{nth};
ghost use Rattle.circuit.specs.Circuit.{is_set, size};
ghost use Rattle.gadgets.specs.Internal.Accepting.{circuit_in};
ghost use Rattle.simulation.specs.Internal.Evaluating.{Evaluable};
ghost use Rattle.symbolic.specs.Internal.Terms.{one, AndTakes, Listed};
ghost use Rattle.symbolic.specs.Internal.Expanding.{AndWrites, FrameAsks, FrameWrites, Expanded};

use super::gadget;
use frames::randoms::random_bits;
use frames::walk::{Frame, Gate, Walk};
use gadgets::places::Gadget;

// The sum that is 1.
pub const ONE: u64 = 0x2_0000;

// A constant as a sum.
fn constant(value: u16) -> u64
    ensures { result ≡ cond (is_set value) one 0 }
{
    if value < 1 { 0 } else { ONE }
}

// AND: the wires inside it that are read, then its outputs.
fn write_and(
    sums: &mut [u64],
    terms: &mut [u64; 80],
    gadget: Gadget,
    ops: &[u16],
    tape: &[u64],
    read: &[u16],
    outputs: usize,
)
    requires { AndTakes gadget ops.now sums.old tape.now × (outputs + gadget.d ≤ 32) × Listed read.now (length sums.old) }
    ensures { AndWrites gadget.d gadget.first ops.now tape.now gadget.used read.now (length read.now) outputs sums.old terms.old sums.new terms.new }
{
    gadget::read_inside(sums, terms, gadget, ops, tape, read);
    gadget::write_outputs(sums, terms, gadget, ops, tape, outputs);
}

// The wires of a frame at a place, behind so many shares and outputs of ANDs. (Gates are single expressions, as those of bytes in
// `simulation`: one generic function for both would be no plainer.) The answer is how many outputs there are then.
fn write_frame(
    sums: &mut [u64],
    terms: &mut [u64; 80],
    frame: Frame,
    place: Gadget,
    from: usize,
    ops: &[u16],
    shares: &[u64],
    tape: &[u64],
    read: &[u16],
    outputs: usize,
) -> usize
    requires { FrameAsks frame place.d place.first from place.used ops.now (length sums.old) (length shares.now) (length tape.now) outputs × Listed read.now (length sums.old) }
    ensures { FrameWrites frame place.d place.first from place.used ops.now shares.now tape.now read.now (length read.now) outputs sums.old terms.old sums.new terms.new result }
{
    let (first, d) = (place.first, place.d);
    match frame {
        Frame::Gate(Gate::In { .. }) => {
            sums[first..first + d].copy_from_slice(&shares[from..from + d]);
        }
        Frame::Gate(Gate::Con { value, .. }) => sums[first] = constant(value),
        Frame::Gate(
            Gate::Xor {
                first: one,
                second: other,
            },
        ) => sums[first] = sums[one as usize] ^ sums[other as usize],
        Frame::Gate(Gate::Not { wire }) => sums[first] = ONE ^ sums[wire as usize],
        Frame::Gate(Gate::Reg { wire }) => sums[first] = sums[wire as usize],
        Frame::Gate(Gate::Out) => {}
        Frame::And => {
            write_and(sums, terms, place, ops, tape, read, outputs);
            return outputs + d;
        }
        Frame::Ref => gadget::refresh(sums, place, ops, tape),
    }
    outputs
}

// The wires of an accepted table, from the sums of the first 18 variables that its shares and its random bits are. The answer is how
// many outputs of ANDs there are.
pub fn expand(
    table: &[u16],
    shares: &[u64],
    tape: &[u64],
    read: &[u16],
    sums: &mut [u64],
    terms: &mut [u64; 80],
) -> usize
    requires { Evaluable table.now shares.now tape.now (length sums.old) × (length tape.now ≤ 16) × ((x : ℕ) → nth shares.now x < 2 ^ 18) × ((x : ℕ) → nth tape.now x < 2 ^ 18) × (length sums.old ≤ wire_limit)
        × (length read.now ≤ 8) × ((i : ℕ) → i < length read.now → nth read.now i < size (circuit_in table.now)) × (terms.old ≡ replicate 80 0) }
    ensures { Expanded table.now shares.now tape.now read.now (length read.now) sums.new terms.new result }
{
    let d = table[1];
    let n = d as usize;
    let randoms = random_bits(d);
    let mut walk = Walk { d, at: 2 };
    let mut first = 0;
    let mut from = 0;
    let mut used = 0;
    let mut outputs = 0;
    // a walk's step goes over as many words as the frame has
    while let Ok(Some(next)) = walk.step(table, randoms) {
        let ops = walk.operands(table);
        let place = Gadget {
            d: n,
            pairs: randoms as usize,
            first,
            used,
        };
        outputs = write_frame(
            sums, terms, next.frame, place, from, ops, shares, tape, read, outputs,
        );
        first += next.shape.wires;
        from += n * next.shape.inputs;
        used += next.shape.randoms;
        walk = next.walk;
    }
    outputs
}
