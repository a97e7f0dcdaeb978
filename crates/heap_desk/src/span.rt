ghost use Rattle.std.specs.Prelude.{◌≡◌};
ghost use Rattle.heap_desk.specs.tools.Spans.{no_span, word_span, has_gap, behind, with_next};

/// What a search asks of blocks that follow one another: where the first begins, where the last ends, and the widest gap
/// between two of them. `end` is 0 where there is no block.
#[derive(Clone, Copy)]
pub struct Span {
    pub first: u32,
    pub end: u32,
    pub widest: u32,
}

impl Span {
    /// No block.
    pub fn none() -> Span
        ensures { result ≡ no_span }
    {
        Span {
            first: 0,
            end: 0,
            widest: 0,
        }
    }

    /// The block that begins at this word and ends before word `end`, or none where `end` is 0.
    pub fn of_word(at: u32, end: u32) -> Span
        ensures { result ≡ word_span at end }
    {
        Span {
            first: at,
            end,
            widest: 0,
        }
    }

    /// Whether there are so many words before one of the blocks, from word `from` on.
    pub fn has_gap(self, from: u32, words: u64) -> bool
        ensures { result ≡ has_gap self from words }
    {
        self.end != 0
            && (words <= u64::from(self.first.saturating_sub(from))
                || words <= u64::from(self.widest))
    }

    /// The word behind the last block, and `from` where there is none.
    pub fn behind(self, from: u32) -> u32
        ensures { result ≡ behind self from }
    {
        if self.end == 0 { from } else { self.end }
    }

    /// These blocks and those of `next` behind them.
    pub fn with_next(self, next: Span) -> Span
        ensures { result ≡ with_next self next }
    {
        if next.end == 0 {
            return self;
        }
        if self.end == 0 {
            return next;
        }
        let between = next.first.saturating_sub(self.end);
        Span {
            first: self.first,
            end: next.end,
            widest: self.widest.max(next.widest).max(between),
        }
    }
}
