// The wires that are read, on a list.
ghost use Rattle.std.specs.Prelude.{◌≡◌, ◌+◌, ◌++◌, [], ◌∷◌, ◌≤◌, ◌<◌, length, take, MatchOption};
ghost use Rattle.circuit.specs.Limits.{wire_limit};

// How many wires there are, and the first eight of them, in order, in an array: nothing here is on a heap.
#[derive(Clone, Copy)]
pub struct ReadWires {
    pub wires: [u16; 8],
    pub count: usize,
    ghost sized: { length wires ≡ 8 },
}

impl ReadWires {
    // An empty list.
    pub(crate) fn none() -> Self
        ensures { result.count ≡ 0 }
    {
        ReadWires {
            wires: [0; 8],
            count: 0,
        }
    }

    // All of them, as a list; none where they are more than eight.
    pub(crate) fn as_slice(&self) -> Option<&[u16]>
        ensures { MatchOption result (8 < self.now.count) (λ read. (self.now.count ≤ 8) × (read.now ≡ take self.now.count self.now.wires)) }
    {
        self.wires.get(..self.count)
    }

    // A wire more, behind the others: listed if it is one of the first eight, counted in any case.
    pub(crate) fn with(self, wire: usize) -> Self
        requires { (self.count ≤ wire) × (wire ≤ wire_limit) }
        ensures counted { result.count ≡ self.count + 1 }
        ensures listed { take result.count result.wires ≡ take 8 (take self.count self.wires ++ wire ∷ []) }
    {
        let mut wires = self.wires;
        if 8 <= self.count {
            return ReadWires {
                wires,
                count: self.count + 1,
            };
        }
        wires[self.count] = wire as u16;
        ReadWires {
            wires,
            count: self.count + 1,
        }
    }
}
