ghost use Rattle.std.specs.Prelude.{◌≡◌, ℕ, Bool, true, List};
ghost use Rattle.dfi_base.specs.Told.{Program, kind_of};
ghost use Rattle.dfi_base.specs.Laws.{AreKin, BranchesAreApart, DepthIsByName, LivesAreOne, FirstLives, RunsAreOne, JoinIsGrown, ThreadsAreAlike};
ghost use Rattle.dfi_base.specs.Alike.{FitsOnce, IsAlike};
ghost use Rattle.dfi_base.specs.WordLaws.{WordsMakeWords, WordsAreIntegers};

/// Of two threads below one, one is above the other, or they are below two branches of one thread.
pub fn threads_are_kin()
    ensures { AreKin }
{}

/// Two threads below different branches of one are apart: neither is below the other.
pub fn branches_are_apart()
    ensures { BranchesAreApart }
{}

/// How deep a thread is, by its name.
pub fn depth_is_by_name()
    ensures { DepthIsByName }
{}

/// A life begins in one way and wants one thing, and who is next has not ended.
pub fn lives_are_one<E, S, W>()
    ensures { (p : Program E S W) → LivesAreOne (kind_of p) }
{}

/// The first thread lives wherever somebody is next.
pub fn first_thread_lives<E, S, W>()
    ensures { (p : Program E S W) (fits : List E → W → E → Bool) → FirstLives (kind_of p) (λ h w e. fits h w e ≡ true) }
{}

/// Where one entry of a name fits what is wanted, runs along the same names are the same, and so are those along the least names.
pub fn runs_are_one<E, S, W>()
    ensures { (p : Program E S W) (fits : List E → W → E → Bool) → FitsOnce (kind_of p) (λ h w e. fits h w e ≡ true) → RunsAreOne (kind_of p) (λ h w e. fits h w e ≡ true) }
{}

/// The history of a branch, joined into that of its parent, is one in which each entry is by a thread that is next.
pub fn join_is_grown<E, S, W>()
    ensures { (p : Program E S W) (fits : W → E → Bool) → JoinIsGrown (kind_of p) (λ w e. fits w e ≡ true) }
{}

/// Threads whose lives are alike end alike, are next alike, and make the same histories.
pub fn threads_are_alike<E, S, T, W>()
    ensures { (p : Program E S W) (q : Program E T W) (alike : S → T → Bool) (fits : List E → W → E → Bool) (r : ℕ) (s0 : S) (t0 : T)
        → IsAlike (kind_of p) (kind_of q) (λ s t. alike s t ≡ true) → alike s0 t0 ≡ true
        → ThreadsAreAlike (kind_of p) (kind_of q) (λ h w e. fits h w e ≡ true) r s0 t0 }
{}

/// Each operator makes a word of words.
pub fn words_make_words()
    ensures { WordsMakeWords }
{}

/// Words and the integers of 32 bits stand for one another, and sums, differences and products are those of the integers, wrapped.
pub fn words_are_integers()
    ensures { WordsAreIntegers }
{}
