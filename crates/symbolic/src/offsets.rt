// The wires inside AND, told by how far they stand behind its first.
ghost use Rattle.std.specs.Prelude.{◌≡◌, ◌≤◌, ◌<◌};
ghost use Rattle.gadgets.specs.Internal.Places.{cross_start};
ghost use Rattle.symbolic.specs.Internal.Inside.{share_at, product_wire, cross_wire, inner_at, WireOf};

// A wire inside AND, by its letter in document 01 and the shares that it is of. A register stands for the wire that it holds.
#[derive(Clone, Copy)]
pub enum Inner {
    // r and R, of a pair of shares
    R { pair: usize },
    // B, and m and M
    B { i: usize },
    M { i: usize },
    // u and U, v and V, w and W
    U { i: usize, j: usize },
    V { i: usize, j: usize },
    W { i: usize, j: usize },
}

// B, m or M.
fn product_wire(i: usize, part: usize) -> Inner
    ensures { result ≡ product_wire i part }
{
    match part {
        0 => Inner::B { i },
        _ => Inner::M { i },
    }
}

// u, U, v, V, w or W.
fn cross_wire(i: usize, j: usize, part: usize) -> Inner
    ensures { result ≡ cross_wire i j part }
{
    match part {
        0 | 1 => Inner::U { i, j },
        2 | 3 => Inner::V { i, j },
        _ => Inner::W { i, j },
    }
}

// The share at a place among those other than i.
fn share_at(i: usize, slot: usize) -> usize
    requires { slot < 8 }
    ensures { result ≡ share_at i slot }
{
    if i <= slot { slot + 1 } else { slot }
}

// The wire that stands so far behind AND's first.
#[tactic(auto, using(crate::proofs::Inside::shares_fit), unfolding(crate::specs::Internal::Inside::inner_at))]
pub(crate) fn inner_at(d: usize, offset: usize) -> Inner
    requires { (2 ≤ d) × (d ≤ 8) × (offset < cross_start d d) }
    ensures { (result ≡ inner_at d offset) × WireOf d result }
{
    let masks = d * (d - 1);
    if offset < masks {
        return Inner::R { pair: offset / 2 };
    }
    let crosses = masks + 3 * d;
    if offset < crosses {
        let rest = offset - masks;
        return product_wire(rest / 3, rest % 3);
    }
    let row = 6 * (d - 1);
    let i = (offset - crosses) / row;
    let rest = (offset - crosses) % row;
    cross_wire(i, share_at(i, rest / 6), rest % 6)
}
