ghost use Rattle.lawful_law.specs.Laws.{CoveredRunsAreLawful};

use chain_law as _;
use live_law as _;
use path_law as _;
use tree_law as _;

/// Each core run of a module whose unchecked reads are covered is lawful, dirty runs included.
pub fn covered_runs_are_lawful()
    ensures { CoveredRunsAreLawful }
{}
