ghost use Rattle.text_law.specs.Laws.{TextsAreTold, TextsAreOne, TextsAreReadBack};

/// Each list of bytes is the text of a module, or has a first fault.
pub fn texts_are_told()
    ensures { TextsAreTold }
{}

/// A text is that of one module and has no fault, and no bytes have two first faults.
pub fn texts_are_one()
    ensures { TextsAreOne }
{}

/// A module that has a text is the one that is read back from it.
pub fn texts_are_read_back()
    ensures { TextsAreReadBack }
{}
