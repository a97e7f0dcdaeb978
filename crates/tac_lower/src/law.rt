//! Laws of the code of typed programs.
ghost use Rattle.tac_lower.specs.Laws.{
  PiecesAreCounted,
  PiecesAreTyped,
  FunctionsStandInCode,
  TypesHaveShapes,
};

/// How many instructions a piece makes does not depend on the numbers with which it begins.
pub fn pieces_are_counted()
    ensures { PiecesAreCounted }
{}

/// The code of an expression keeps its type, and a value leaves a temporary.
pub fn pieces_are_typed()
    ensures { PiecesAreTyped }
{}

/// The lines of each function are its own drafts, with their shapes, and its temporaries are enough.
pub fn functions_stand_in_code()
    ensures { FunctionsStandInCode }
{}

/// Each type that the code names has its shape there, with its words and its parts.
pub fn types_have_shapes()
    ensures { TypesHaveShapes }
{}
