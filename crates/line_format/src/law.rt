ghost use Rattle.line_format.specs.Laws.{NumbersAreTold};

/// Each list of bytes is the text of a number of a range with the byte behind it, or has a first fault.
pub fn numbers_are_told()
    ensures { NumbersAreTold }
{}
