ghost use Rattle.stripe_rule.specs.Branches.{TakenInIsGone, OthersLiveOn, NobodyIsLeft};
ghost use Rattle.stripe_rule.specs.Laws.{StepTakes, StepLooks, StepDraws, StepGives, StepSplits, StepJoins, StepTells, StepHears, StepHalts, Opens, Closes};

/// Each kind of step keeps the rule.
pub fn steps_keep_the_rule()
    ensures opens { Opens }
    ensures takes { StepTakes }
    ensures looks { StepLooks }
    ensures draws { StepDraws }
    ensures gives { StepGives }
    ensures splits { StepSplits }
    ensures joins { StepJoins }
    ensures tells { StepTells }
    ensures hears { StepHears }
    ensures halts { StepHalts }
{}

/// What the log of thread 1 is at the end.
pub fn a_close_tells_the_log()
    ensures { Closes }
{}

/// Who lives of the branches of a pass, as they are taken in, in whatever order.
pub fn branches_of_a_pass()
    ensures gone { TakenInIsGone }
    ensures others { OthersLiveOn }
    ensures nobody { NobodyIsLeft }
{}
