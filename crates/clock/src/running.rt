// One clock of an accepted table's wires, frame by frame.
ghost use Rattle.std.specs.Prelude.{◌≡◌, cond, ◌+◌, ◌≤◌, ◌<◌, leb, nat_lt, length, position};
ghost use Rattle.circuit.specs.Kinds.{pairs};
ghost use Rattle.circuit.specs.Circuit.{size};
ghost use Rattle.circuit.specs.Wires.{reg};
ghost use Rattle.semantics.specs.Clock.{register_bytes};
ghost use Rattle.gadgets.specs.Internal.Accepting.{circuit_in};
ghost use Rattle.gadgets.specs.Internal.Frames.{frame_wires, Small, FrameEarly, FrameSupplied};
ghost use Rattle.clock.specs.Internal.Running.{Runs};
ghost use Rattle.clock.specs.Internal.Parts.{Framed};
ghost use Rattle.simulation.specs.Internal.Evaluating.{Bits};
ghost use Rattle.clock.specs.Internal.Whole.{wires_of, Ready, Clocked};

use super::gadget;
use circuit::WIRES;
use frames::randoms::random_bits;
use frames::walk::{Frame, Gate, Walk};
use gadgets::places::Gadget;
use reach::bytes::largest;
use simulation::gadget::copy;
use simulation::values;
use simulation::values::Before;

// What a REG shows next.
fn register(values: &[u8], bank: &mut [u8], first: usize, wire: u16)
    requires { (first + 1 ≤ length bank.old) × (wire < first) × (first ≤ length values.now) }
    ensures { Runs (λ k. (first + 1 ≤ k.size) × (k.gate first ≡ reg wire)) first (first + 1) values.now bank.old values.now bank.new }
{
    bank[first] = values[wire as usize];
}

// A frame's wires. A gadget takes so many random bits.
fn run_frame(
    values: &mut [u8],
    bank: &mut [u8],
    frame: Frame,
    d: usize,
    randoms: u16,
    before: Before,
    ops: &[u16],
    shares: &[u8],
    tape: &[u8],
)
    requires { Small before.first d × (before.first + frame_wires frame d ≤ length values.old) × (before.first + frame_wires frame d ≤ length bank.old) × FrameEarly frame d before.first ops.now × FrameSupplied frame d before.from before.used (length shares.now) (length tape.now) × (randoms ≡ pairs d) }
    ensures { Runs (Framed frame d before.first before.from before.used ops.now shares.now tape.now) before.first (before.first + frame_wires frame d) values.old bank.old values.new bank.new }
{
    let Before { first, from, used } = before;
    let g = Gadget {
        d,
        pairs: randoms as usize,
        first,
        used,
    };
    match frame {
        Frame::Gate(Gate::In { .. }) => copy(values, first, shares, from, d),
        Frame::Gate(Gate::Con { value, .. }) => values::constant(values, first, value),
        Frame::Gate(
            Gate::Xor {
                first: one,
                second: other,
            },
        ) => values::sum(values, first, one, other),
        Frame::Gate(Gate::Not { wire }) => values::inverse(values, first, wire),
        Frame::Gate(Gate::Reg { wire }) => register(values, bank, first, wire),
        Frame::Gate(Gate::Out) => {}
        Frame::And => gadget::and(values, bank, g, ops, tape),
        Frame::Ref => gadget::refresh(values, bank, g, ops, tape),
    }
}

// All frames. Before, the buffer of values holds what every register shows.
fn run_frames(table: &[u16], shares: &[u8], tape: &[u8], values: &mut [u8], bank: &mut [u8])
    requires { Ready table.now shares.now tape.now values.old bank.old }
    ensures { Clocked table.now shares.now tape.now values.old values.old bank.old values.new bank.new }
{
    let d = table[1];
    let n = d as usize;
    let randoms = random_bits(d);
    let mut walk = Walk { d, at: 2 };
    let mut before = Before {
        first: 0,
        from: 0,
        used: 0,
    };
    // an accepted table has a frame at each place of the walk, up to its end
    while let Ok(Some(next)) = walk.step(table, randoms) {
        let ops = walk.operands(table);
        run_frame(
            values, bank, next.frame, n, randoms, before, ops, shares, tape,
        );
        before = before.behind(next.shape, n);
        walk = next.walk;
    }
}

// One clock: each register shows its byte of the bank, and the bank gets what it shows next.
pub(crate) fn run(
    table: &[u16],
    wires: usize,
    shares: &[u8],
    tape: &[u8],
    values: &mut [u8],
    bank: &mut [u8],
)
    requires { Ready table.now shares.now tape.now values.old bank.old × (wires ≡ size (circuit_in table.now)) }
    ensures { Clocked table.now shares.now tape.now bank.old values.old bank.old values.new bank.new }
{
    copy(values, 0, bank, 0, wires);
    run_frames(table, shares, tape, values, bank);
}

// A byte of the bank, where the mark is a bit; else 0, which is no byte over 1.
fn register_byte(mark: u8, byte: u8) -> u8
    ensures { result ≡ cond (leb mark 1) byte 0 }
{
    if mark <= 1 { byte } else { 0 }
}

// The first register whose byte of the bank is over 1. A clock on buffers of its own tells the registers: it writes a bit into the byte of
// each, and into no other.
fn search_registers(
    table: &[u16],
    wires: usize,
    shares: &[u8],
    tape: &[u8],
    bank: &[u8],
) -> Option<usize>
    requires { Ready table.now shares.now tape.now bank.now bank.now × (wires ≡ size (circuit_in table.now)) × Bits shares.now × Bits tape.now }
    ensures { result ≡ position (λ b. nat_lt 1 b) (register_bytes (wires_of table.now) bank.now) }
{
    let mut values = [0u8; WIRES];
    let mut marks = [2u8; WIRES];
    run_frames(table, shares, tape, &mut values, &mut marks);
    for x in 0..wires {
        if 1 < register_byte(marks[x], bank[x]) {
            return Some(x);
        }
    }
    None
}

// The same. Where no wire's byte of the bank is over 1, the registers need not be found.
pub(crate) fn first_register_over(
    table: &[u16],
    wires: usize,
    shares: &[u8],
    tape: &[u8],
    bank: &[u8],
) -> Option<usize>
    requires { Ready table.now shares.now tape.now bank.now bank.now × (wires ≡ size (circuit_in table.now)) × Bits shares.now × Bits tape.now }
    ensures { result ≡ position (λ b. nat_lt 1 b) (register_bytes (wires_of table.now) bank.now) }
{
    if largest(&bank[..wires]) <= 1 {
        return None;
    }
    search_registers(table, wires, shares, tape, bank)
}
