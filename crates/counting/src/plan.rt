// How sharings and tapes are made of free bits.
ghost use Rattle.counting.specs.Internal.Tallying.{Numbered, Planned};

// The shares of a secret bit that are free; the free bits before those of the tape, and all.
#[derive(Clone, Copy)]
pub struct Plan {
    pub others: usize,
    pub start: usize,
    pub free: usize,
}

// The plan for an accepted table.
pub(crate) fn plan_pairs(table: &[u16], inputs: usize, randoms: usize) -> Plan
    requires { Numbered table.now inputs randoms }
    ensures { Planned table.now result }
{
    let others = table[1] as usize - 1;
    let start = others * inputs;
    Plan {
        others,
        start,
        free: start + randoms,
    }
}
