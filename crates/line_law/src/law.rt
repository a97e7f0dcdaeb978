//! Laws of the definitions.

ghost use Rattle.line_law.specs.Laws.{OneLine};

/// A rule of types that is broken twice at one place of a parsed source has one line there.
pub fn one_line()
    ensures { OneLine }
{}
