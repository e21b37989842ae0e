// The stages that the latency is taken from.
ghost use Rattle.std.specs.Prelude.{◌≡◌};
ghost use Rattle.checker.specs.Internal.Spans.{no_span, with_input, with_output, latency_in};

// The lowest stage of an IN, one past the last stage where there is none; the highest stage of an OUT, 0 where there is none. So
// the difference is right without an IN or an OUT too, and neither is a case of its own.
#[derive(Clone, Copy)]
pub struct Span {
    pub lowest: usize,
    pub highest: usize,
}

impl Span {
    // Of no frames.
    pub(crate) fn none() -> Self
        ensures { result ≡ no_span }
    {
        Span {
            lowest: circuit::LAST_STAGE + 1,
            highest: 0,
        }
    }

    // With an IN at a stage, which is a word of the table.
    pub(crate) fn with_input(self, stage: u16) -> Span
        ensures { result ≡ with_input self stage }
    {
        Span {
            lowest: self.lowest.min(stage as usize),
            ..self
        }
    }

    // With an OUT at a stage.
    pub(crate) fn with_output(self, stage: u16) -> Span
        ensures { result ≡ with_output self stage }
    {
        Span {
            highest: self.highest.max(stage as usize),
            ..self
        }
    }

    // The latency of all frames, taken once they are all known, since an IN may come after an OUT.
    pub(crate) fn latency(self) -> usize
        ensures { result ≡ latency_in self }
    {
        self.highest.saturating_sub(self.lowest)
    }
}
