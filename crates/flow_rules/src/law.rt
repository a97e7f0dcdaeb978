ghost use Rattle.flow_rules.specs.Laws.{
  ClosedPointsHaveAll,
  PointsAreLeast,
  ClosedReachHasAll,
  ReachIsLeast,
  BuiltIsAccepted,
  FactsAreTouched,
  WhatReachesIsAFact,
};

use dfi_base as _;
use tac_ir as _;

/// A closed table of points has all that the rules of inference give, and one that has nothing else is within every closed one.
pub fn points_are_least()
    ensures all { ClosedPointsHaveAll }
    ensures least { PointsAreLeast }
{}

/// The same of a table of reach, leaf by leaf, whatever accesses may touch.
pub fn reach_is_least()
    ensures all { ClosedReachHasAll }
    ensures least { ReachIsLeast }
{}

/// The module that is built of code is accepted.
pub fn built_is_accepted()
    ensures { BuiltIsAccepted }
{}

/// The facts of code are the leaves that its definitions may touch, and what reaches a point is a fact.
pub fn facts_are_touched()
    ensures facts { FactsAreTouched }
    ensures reach { WhatReachesIsAFact }
{}
