ghost use Rattle.chain_law.specs.Laws.{RunsHaveChains, RunnableIsRunning, FramesAreApart};

use path_law as _;
use tree_law as _;

/// Each history of a module whose code has a good form has its chain of trees, and the last one is that of the run's threads.
pub fn runs_have_chains()
    ensures { RunsHaveChains }
{}

/// The threads that run in the last tree of a history are those that are runnable after it.
pub fn runnable_is_running()
    ensures { RunnableIsRunning }
{}

/// The frames of a thread stand one behind the other in its region, and those of two threads that live share no word.
pub fn frames_are_apart()
    ensures { FramesAreApart }
{}
