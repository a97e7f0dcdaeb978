//! Laws of built modules.
#![tactic(auto)]

ghost use Rattle.module_law.specs.Laws.{BuiltIsOne, PointsAreOne};

/// Code has one module that is built of it, and one list of rows of points.
pub fn one_module()
    ensures points { PointsAreOne }
    ensures module { BuiltIsOne }
{}
