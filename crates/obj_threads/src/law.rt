ghost use Rattle.obj_threads.specs.Laws.{TreesAreThreads, GrownHaveTrees};

/// The lives of the tree behind a history are those of its threads, each told by its own entries: each entry is by who is next, and who is next
/// runs. And each list that is grown so is a history.
pub fn trees_are_threads()
    ensures threads { TreesAreThreads }
    ensures histories { GrownHaveTrees }
{}
