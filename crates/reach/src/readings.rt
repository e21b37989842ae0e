// What probes read: marks on probed wires, moved on frame by frame from the last to the first, and shown where they end.
ghost use Rattle.std.specs.Prelude.{◌≡◌, ℕ, ◌+◌, ◌*◌, ◌≤◌, ◌<◌, length};
ghost use Rattle.circuit.specs.Limits.{wire_limit, table_limit};
ghost use Rattle.circuit.proofs.Base.{In};
ghost use Rattle.circuit.specs.Circuit.{size};
ghost use Rattle.gadgets.specs.Internal.Places.{word_a, word_b};
ghost use Rattle.gadgets.specs.Internal.Gates.{AndGates, FrameGates};
ghost use Rattle.gadgets.specs.Internal.Frames.{frame_wires, FrameEarly};
ghost use Rattle.gadgets.specs.Internal.Accepting.{circuit_in};
ghost use Rattle.reach.specs.Internal.Marks.{Marked, mark_all, Moves, GatesOf, shown_at};
ghost use Rattle.reach.specs.Internal.Listing.{Room, Lists, first_of};
ghost use Rattle.reach.specs.Internal.Reading.{Reachable, OnStops, Shows};

use super::listing::{Listed, list_frames};
use super::{bytes, reach};
use circuit::{TABLE_WORDS, WIRES};
use frames::randoms::random_bits;
use frames::walk::{Frame, Gate, Walk};
use gadgets::places::Gadget;

// The most frames behind HEAD: each of them, and HEAD too, has at least two words.
const FRAMES: usize = TABLE_WORDS / 2;
// Words of a table for which small lists of frames do: they are set to 0 at each call, and large ones take longer than such a table.
const FEW_WORDS: usize = 512;

const FEW_FRAMES: usize = FEW_WORDS / 2;
// Frames that are passed over together where no wire of theirs is marked.
const FRAME_BLOCK: usize = 16;

// One past the highest probed wire: so many marks have to be looked at, 0 without probes. A search of the marks, which reads many at
// once, would wait for those that were just written one by one; and a loop that also marks would go slowly.
fn marks_end(probes: &[u16]) -> usize
    ensures { ((x : ℕ) → In x probes.now → x < result) × ((wires : ℕ) → ((x : ℕ) → In x probes.now → x < wires) → result ≤ wires) }
{
    if probes.is_empty() {
        return 0;
    }
    let mut most: u16 = 0;
    for &wire in probes {
        most = most.max(wire);
    }
    most as usize + 1
}

// A mark on each probed wire.
fn mark(marks: &mut [u8], probes: &[u16])
    requires { (x : ℕ) → In x probes.now → x < length marks.old }
    ensures { marks.new ≡ mark_all marks.old probes.now }
{
    for &wire in probes {
        marks[wire as usize] = 1;
    }
}

// AND's wires, where one of them is marked.
fn propagate_and(marks: &mut [u8], gadget: Gadget, ops: &[u16])
    requires { (gadget.first + frame_wires Frame.And gadget.d ≤ length marks.old) × FrameEarly Frame.And gadget.d gadget.first ops.now }
    ensures { Moves (λ g. AndGates g gadget.d gadget.first (word_a ops.now) (word_b gadget.d ops.now)) gadget.first (gadget.first + frame_wires Frame.And gadget.d) marks.old marks.new }
{
    let end = gadget.first + gadget.and_wires();
    if 0 < bytes::largest(&marks[gadget.first..end]) {
        reach::propagate_and(marks, gadget, ops);
    }
}

// A frame's wires, from where a gadget would stand there.
fn propagate_frame(marks: &mut [u8], frame: Frame, place: Gadget, ops: &[u16])
    requires { (place.first + frame_wires frame place.d ≤ length marks.old) × FrameEarly frame place.d place.first ops.now }
    ensures { (from : ℕ) → Moves (FrameGates frame place.d place.first from ops.now) place.first (place.first + frame_wires frame place.d) marks.old marks.new }
{
    match frame {
        Frame::Gate(gate) => match gate {
            Gate::In { .. } => {}
            Gate::Con { .. } => {}
            Gate::Xor { first, second } => {
                reach::propagate(marks, place.first, first as usize, second as usize)
            }
            Gate::Not { wire } => {
                reach::propagate(marks, place.first, wire as usize, wire as usize)
            }
            Gate::Reg { .. } => {}
            Gate::Out => {}
        },
        Frame::And => propagate_and(marks, place, ops),
        Frame::Ref => reach::propagate_refresh(marks, place, ops),
    }
}

// The marks on the wires of the listed frames from one to another, moved on, the last frame first.
fn propagate_block(table: &[u16], list: &[Listed], from: usize, to: usize, marks: &mut [u8])
    requires { Lists table.now list.now to × (from ≤ to) × Room table.now list.now × (size (circuit_in table.now) ≤ length marks.old) }
    ensures { Moves (GatesOf table.now) (first_of list.now from) (first_of list.now to) marks.old marks.new }
{
    let d = table[1];
    let randoms = random_bits(d);
    for i in (from..to).rev() {
        let listed = list[i];
        let walk = Walk {
            d,
            at: listed.start as usize,
        };
        // an accepted table has a frame at each listed place
        let Ok(Some(next)) = walk.step(table, randoms) else {
            return;
        };
        let place = Gadget {
            d: d as usize,
            pairs: randoms as usize,
            first: listed.first as usize,
            // no random bit is read here
            used: 0,
        };
        propagate_frame(marks, next.frame, place, walk.operands(table));
    }
}

// The marks moved on, from the last listed frame to the first. The last block of frames is not asked for a mark, as the list ends at the
// highest one; each other is passed over where no wire of its frames is marked.
fn propagate_frames(table: &[u16], list: &[Listed], count: usize, marks: &mut [u8])
    requires { Lists table.now list.now count × Room table.now list.now × (size (circuit_in table.now) ≤ length marks.old) }
    ensures { Moves (GatesOf table.now) 0 (first_of list.now count) marks.old marks.new }
{
    let mut to = count.saturating_sub(FRAME_BLOCK);
    propagate_block(table, list, to, count, marks);
    // block by block; the first may have fewer frames
    while 0 < to {
        let from = to.saturating_sub(FRAME_BLOCK);
        let low = list[from].first as usize;
        let high = list[to].first as usize;
        let marked = 0 < bytes::largest(&marks[low..high]);
        if marked {
            propagate_block(table, list, from, to, marks);
        }
        to = from;
    }
}

// From clear marks, a mark on exactly the stops that the probes on an accepted table's wires read; the frames that make the marked
// wires are listed on the way, in a list of so many.
fn reach_listed<const ROOM: usize>(table: &[u16], probes: &[u16], marks: &mut [u8])
    requires { Reachable table.now probes.now marks.old × (length table.now ≤ 2 * ROOM) × (2 * ROOM ≤ table_limit) }
    ensures { OnStops (circuit_in table.now).wires probes.now marks.new }
{
    let mut list = [Listed::NONE; ROOM];
    mark(marks, probes);
    let end = marks_end(probes);
    let count = list_frames(table, end, &mut list);
    propagate_frames(table, &list, count, marks);
}

// The same, by a list that is long enough for the table.
pub fn reach_stops(table: &[u16], probes: &[u16], marks: &mut [u8])
    requires { Reachable table.now probes.now marks.old }
    ensures { OnStops (circuit_in table.now).wires probes.now marks.new }
{
    if FEW_WORDS < table.len() {
        reach_listed::<FRAMES>(table, probes, marks);
    } else {
        reach_listed::<FEW_FRAMES>(table, probes, marks);
    }
}

// A wire's byte of the reading, a sheet of the C interface: its value where it is marked, 2 elsewhere.
#[tactic(auto, using(std::proofs::lemmas::Bool::Decides::nat_tests))]
fn shown(mark: u8, value: u8) -> u8
    ensures { result ≡ shown_at mark value }
{
    if mark < 1 { 2 } else { value }
}

// The reading, from the values of all wires and marks on the stops that are read.
pub fn show(marks: &[u8; WIRES], values: &[u8], wires: usize, reading: &mut [u8])
    requires { (wires ≤ wire_limit) × (wire_limit ≤ length values.now) × (wire_limit ≤ length reading.old) × ((x : ℕ) → Marked marks.now x → x < wires) }
    ensures { Shows marks.now values.now reading.old reading.new }
{
    for x in 0..wires {
        reading[x] = shown(marks[x], values[x]);
    }
    // no other wire is marked
    for x in wires..WIRES {
        reading[x] = 2;
    }
}
