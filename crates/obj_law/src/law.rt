ghost use Rattle.obj_law.specs.Frames.{BranchesShareFrames, OpenCallsAreFrames, LivingFramesAreActive, ActivationsAreOld, ActivationsAreMade, MakersAreFresh};
ghost use Rattle.obj_law.specs.Going.{CodeGoesOn, RunsAreTotal};
ghost use Rattle.obj_law.specs.Laws.{EventsAreSeen, HistoriesAreValid, WrittenWordsAreMade, HistoriesAreOne, RunsAreOne, OneThreadIsOne};

/// What a life does that stands ready is seen by the instruction at which it stands.
pub fn events_are_seen()
    ensures { EventsAreSeen }
{}

/// Each entry of a history has the valid answer behind those before it, and a word that was written is of an object that was made.
pub fn histories_are_valid()
    ensures valid { HistoriesAreValid }
    ensures made { WrittenWordsAreMade }
{}

/// Histories of the same names are the same; so are those of one length, where nobody forks.
pub fn histories_are_one()
    ensures names { HistoriesAreOne }
    ensures alone { OneThreadIsOne }
{}

/// Each history goes on by what a thread wants next and its valid answer; and along given names there is one run, or one of them is refused.
pub fn runs_are_one()
    ensures goes_on { CodeGoesOn }
    ensures total { RunsAreTotal }
    ensures one { RunsAreOne }
{}

/// Thread 1 begins on main's frame, and each branch on that of its parent; the open calls of a name are the frames of its life, so that a
/// frame that lives has an activation; and behind an entry each activation has the frame of one that was there before, or the one that
/// the entry's call has made.
pub fn frames_are_calls()
    ensures shared { BranchesShareFrames }
    ensures calls { OpenCallsAreFrames }
    ensures living { LivingFramesAreActive }
    ensures old { ActivationsAreOld }
{}

/// Each activation is on a frame that was made, or on main's; and what a thread makes next is new.
pub fn makers_are_fresh()
    ensures made { ActivationsAreMade }
    ensures fresh { MakersAreFresh }
{}
