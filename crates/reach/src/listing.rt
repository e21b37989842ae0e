// The frames of an accepted table, listed: where each begins, and how many wires come before it.
ghost use Rattle.std.specs.Prelude.{◌≤◌};
ghost use Rattle.circuit.specs.Circuit.{size};
ghost use Rattle.gadgets.specs.Internal.Accepting.{AcceptedTable, circuit_in};
ghost use Rattle.reach.specs.Internal.Listing.{Room, Lists, first_of};

use frames::kinds::decide;
use frames::randoms::random_bits;

// A frame of a table: where it begins, and how many wires come before it.
#[derive(Clone, Copy)]
pub(crate) struct Listed {
    pub start: u16,
    pub first: u16,
}

impl Listed {
    pub const NONE: Listed = Listed { start: 0, first: 0 };
}

// The frames that make the wires below `limit`, and behind the last of them how many wires come before; the answer is how many frames
// these are. Frames of one kind stand in rows: the place of the next is then known before its kind word is read.
pub(crate) fn list_frames(table: &[u16], limit: usize, list: &mut [Listed]) -> usize
    requires { AcceptedTable table.now × (limit ≤ size (circuit_in table.now)) × Room table.now list.old }
    ensures { Lists table.now list.new result × (limit ≤ first_of list.new result) }
{
    let d = table[1];
    let randoms = random_bits(d);
    let mut kind = 0;
    let mut shape = decide(kind, d, randoms);
    let mut at = 2;
    let mut first = 0;
    let mut count = 0;
    // a frame has as many words and wires as its kind says
    while first < limit {
        if table[at] != kind {
            kind = table[at];
            shape = decide(kind, d, randoms);
        }
        list[count] = Listed {
            start: at as u16,
            first: first as u16,
        };
        count += 1;
        at += 1 + shape.words;
        first += shape.wires;
    }
    list[count] = Listed {
        start: at as u16,
        first: first as u16,
    };
    count
}
