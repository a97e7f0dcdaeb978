//! Law of building: tables that are exactly those of code make the module that is built of it.
#![tactic(auto)]

ghost use Rattle.build_law.specs.Laws.{BuiltOfTables, ClassedCanRun};

/// Least tables, their sets and classes, and the marks of the reads that may go unchecked are the module that is built of code; and a
/// module of a good form with the classes of its sets can run.
pub fn tables_make_modules()
    ensures built { BuiltOfTables }
    ensures run { ClassedCanRun }
{}
