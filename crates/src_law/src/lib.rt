//! What a typed program means: what its threads do, its traces, and its runs along names; and the laws of these.
#![tactic(auto)]

ghost use Rattle.src_law.specs.tools.ReaderLaws.{HistoriesAreRead};
ghost use Rattle.src_law.specs.tools.RunLaws.{RunsAreComputed};
ghost use Rattle.src_law.specs.Laws.{PrefixesAreCut, ResultsAreUnique, HistoriesGoBack, HistoriesGoOn, HistoriesAreOne, AloneIsOne, ReadsFindWrites, FreedIsOver, RunsAreOne, CleanIsByHistories};

mod heard;

use c_ast as _;
use c_typed as _;
pub use heard::{End, Heard};

/// What comes first in a trace is a trace, which comes to one result; and what comes first in a history is a history.
pub fn traces_begin_alike()
    ensures traces { PrefixesAreCut }
    ensures histories { HistoriesGoBack }
{}

/// In each history a read is answered by what was written last, and nobody uses a block that was freed.
pub fn histories_keep_memory()
    ensures reads { ReadsFindWrites }
    ensures freed { FreedIsOver }
{}

/// What the reader does is the trace relation, both ways: histories are grown by threads that do what it says, and no others are.
pub fn histories_are_read()
    ensures { HistoriesAreRead }
{}

/// A part comes to one result along a trace.
pub fn results_are_unique()
    ensures { ResultsAreUnique }
{}

/// A history goes on by each valid event of who is next, and is determined by its names; where nobody forks, by its length.
pub fn histories_are_one()
    ensures goes_on { HistoriesGoOn }
    ensures by_names { HistoriesAreOne }
    ensures alone { AloneIsOne }
{}

/// Along each list of names there is a run, or a name that is refused, and a function of the reader finds it.
pub fn runs_are_computed()
    ensures { RunsAreComputed }
{}

/// Along names there is one run, and none where one of them is refused.
pub fn runs_are_one()
    ensures { RunsAreOne }
{}

/// A program is clean where all that is next is valid, and main returns numbers.
pub fn clean_is_by_histories()
    ensures { CleanIsByHistories }
{}
