ghost use Rattle.flat_core.specs.Laws.{OneEntryFollows, OneRunAlong, OneRefusal, NoRunWhereRefused};

/// After a history at most one entry of a name follows, so there is at most one core run along a list of names; and names that have
/// one are refused nowhere, and else at one place.
pub fn one_run_along()
    ensures entry { OneEntryFollows }
    ensures run { OneRunAlong }
    ensures refusal { OneRefusal }
    ensures either { NoRunWhereRefused }
{}
