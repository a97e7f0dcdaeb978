ghost use Rattle.std.specs.Prelude.{◌≡◌, ◌+◌, ◌<◌, ◌≤◌, ◌^◌, length};
ghost use Rattle.heap_desk.specs.tools.Spans.{no_span, span_at, word_at, joined, first_gap};

use crate::span::Span;
use dfi_base::memory_map::HEAP_FROM;

/// Where a search has come to: the index of the span with a gap before one of its blocks, and the word from which it goes.
#[derive(Clone, Copy)]
pub struct Found {
    pub index: usize,
    pub from: u32,
}

/// So many spans together, from an index on.
#[tactic(auto, using(crate::proofs::Scans::join_step, crate::proofs::Scans::join_end))]
pub fn join(spans: &[Span], first: usize, count: usize) -> Span
    requires { first + count ≤ length spans.now }
    ensures { result ≡ joined (span_at spans.now) first count no_span }
{
    let mut all = Span::none();
    for k in first..first + count {
        all = all.with_next(spans[k]);
    }
    all
}

/// The same of the blocks that begin at so many words.
#[tactic(auto, using(crate::proofs::Scans::join_step, crate::proofs::Scans::join_end))]
pub fn join_words(ends: &[u32], first: usize, count: usize) -> Span
    requires within { first + count ≤ length ends.now }
    requires few { length ends.now < 2 ^ 31 }
    ensures { result ≡ joined (word_at ends.now) first count no_span }
{
    let mut all = Span::none();
    for k in first..first + count {
        all = all.with_next(Span::of_word(HEAP_FROM + k as u32, ends[k]));
    }
    all
}

/// The first of so many spans with so many words before one of its blocks, and how far the blocks before it reach; the index
/// behind them where there is none.
#[tactic(auto, using(crate::proofs::Scans::gap_step, crate::proofs::Scans::gap_end))]
pub fn first_gap(spans: &[Span], first: usize, count: usize, from: u32, words: u64) -> Found
    requires { first + count ≤ length spans.now }
    ensures { result ≡ first_gap (span_at spans.now) first count from words }
{
    let mut reached = from;
    for index in first..first + count {
        let span = spans[index];
        if span.has_gap(reached, words) {
            return Found {
                index,
                from: reached,
            };
        }
        reached = span.behind(reached);
    }
    let index = first + count;
    Found {
        index,
        from: reached,
    }
}

/// The same of the blocks that begin at so many words.
#[tactic(auto, using(crate::proofs::Scans::gap_step, crate::proofs::Scans::gap_end))]
pub fn first_word(ends: &[u32], first: usize, count: usize, from: u32, words: u64) -> Found
    requires within { first + count ≤ length ends.now }
    requires few { length ends.now < 2 ^ 31 }
    ensures { result ≡ first_gap (word_at ends.now) first count from words }
{
    let mut reached = from;
    for index in first..first + count {
        let span = Span::of_word(HEAP_FROM + index as u32, ends[index]);
        if span.has_gap(reached, words) {
            return Found {
                index,
                from: reached,
            };
        }
        reached = span.behind(reached);
    }
    let index = first + count;
    Found {
        index,
        from: reached,
    }
}
