ghost use Rattle.std.specs.Prelude.{◌≡◌, Bool, true, Option, List};
ghost use Rattle.tac_thread.specs.Threads.{Lives};
ghost use Rattle.tree_law.specs.Told.{Told, saying_of};
ghost use Rattle.tree_law.specs.Laws.{AnswersMove, HistoriesHaveChains, LivesKeepTheirRegions};

use tac_thread::Domain;

/// By an answer the newest activation of a life goes on along an edge, in its function, frame and region, or is to enter another, or enters
/// it, or leaves, or stays as it is.
pub fn answers_move<D: Domain>()
    ensures { AnswersMove D.meaning }
{}

/// A log in which each entry tells a thread its answer, lets it fork, lets it wait for good or ends the run has a chain of trees.
pub fn histories_have_chains<D: Domain, E>()
    ensures { (t : Told D.Value D.Stack E) (holds : List E → Lives D.Value D.Stack → Option D.Value → Bool) (is_log : List E → Bool)
        → HistoriesHaveChains D.meaning (saying_of t) (λ h f d. holds h f d ≡ true) (λ h. is_log h ≡ true) }
{}

/// A life's first activation stays in the region in which it began, each other stands in none, each caller at a call of the function
/// above, and each activation at an instruction, whatever the thread was answered.
pub fn lives_keep_their_regions<D: Domain, E>()
    ensures { (t : Told D.Value D.Stack E) → LivesKeepTheirRegions D.meaning (saying_of t) }
{}
