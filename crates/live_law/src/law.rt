ghost use Rattle.tree_law.specs.Told.{Told, saying_of};
ghost use Rattle.live_law.specs.Laws.{LivePointsAreParallel, RunnablePointsAreParallel, BodiesHaveParallelPoints};

use chain_law as _;
use path_law as _;
use tac_thread::Domain;
use tree_law as _;

/// In each tree of a chain, two threads that live and do not wait stand at parallel points, whatever links said.
pub fn live_points_are_parallel<D: Domain, E>()
    ensures { (t : Told D.Value D.Stack E) → LivePointsAreParallel D.meaning (saying_of t) }
{}

/// After each history that goes on, the points of two runnable threads are parallel, dirty runs included.
pub fn runnable_points_are_parallel()
    ensures { RunnablePointsAreParallel }
{}

/// A point has a parallel point where it stands in the body of a branch, and only there.
pub fn bodies_have_parallel_points()
    ensures { BodiesHaveParallelPoints }
{}
