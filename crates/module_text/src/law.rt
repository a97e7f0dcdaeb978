ghost use Rattle.module_text.specs.Laws.{WrittenIsRead};

/// Reading the text of a module gives the module, or memory is wanted.
pub fn written_is_read()
    ensures { WrittenIsRead }
{}
