//! What classes say of sets.
ghost use Rattle.def_classes.specs.Laws.{ClassesTellSets};

/// A class stands for each of its definitions in every set.
pub fn classes_tell_sets()
    ensures { ClassesTellSets }
{}
