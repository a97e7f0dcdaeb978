ghost use Rattle.merge_law.specs.MergeLaws.{LogsAreOneRun, RunsAreLogs};
ghost use Rattle.merge_law.specs.GuestLaws.{Begins, GoesOn, Stops, Forks, Branches, BranchStarts, JoinsByTickets, JoinsOne, JoinedAll, Ends, Returning, IsLeft, StaysLeft, LeftLives, StopsStay};

/// A log that is grown from thread 1 on, that one memory answered and that is at most the budget long, is a core run up to its first stop, and
/// how thread 1 came to rest gives its end.
pub fn logs_are_one_run()
    ensures { LogsAreOneRun }
{}

/// The entries of each core run are such a log, and where it is not cut off, at rest so.
pub fn runs_are_logs()
    ensures { RunsAreLogs }
{}

/// What guests do to their logs.
pub fn guests_keep_their_logs()
    ensures begins { Begins }
    ensures goes_on { GoesOn }
    ensures stops { Stops }
    ensures forks { Forks }
    ensures branches { Branches }
    ensures starts { BranchStarts }
    ensures tickets { JoinsByTickets }
    ensures joins { JoinsOne }
    ensures joined { JoinedAll }
    ensures ends { Ends }
    ensures returns { Returning }
    ensures left { IsLeft }
    ensures left_in_branch { StaysLeft }
    ensures left_lives { LeftLives }
    ensures stops_stay { StopsStay }
{}
