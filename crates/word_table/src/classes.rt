ghost use Rattle.std.specs.Prelude.{◌≡◌};
ghost use Rattle.tac_ir.specs.Answers.{class_of, is_checked};
ghost use Rattle.word_table.specs.tools.Classes.{AreShort};

use tac_ir::Module;

/// The class of a definition, 0 for none.
pub fn class_of(m: &Module, def: u32) -> u16
    requires { AreShort m.now }
    ensures { result ≡ class_of m.now def }
{
    if def == 0 {
        return 0;
    }
    match m.classes.list.get(def as usize - 1) {
        Some(class) => *class as u16,
        None => 0,
    }
}

/// Whether a read is checked.
pub fn is_checked(m: &Module, read: u32) -> bool
    ensures { result ≡ is_checked m.now read }
{
    if read == 0 {
        return true;
    }
    match m.removed.get(read as usize - 1) {
        Some(removed) => !*removed,
        None => true,
    }
}
