//! Laws of the definitions.

ghost use Rattle.std.specs.Prelude.{◌≡◌, List, ◌++◌};
ghost use Rattle.c_ast.specs.declared.program.Item.{Item};
ghost use Rattle.parse_law.specs.Nesting.{Anywhere};
ghost use Rattle.parse_law.specs.FirstFault.{Continues};
ghost use Rattle.parse_law.specs.Tells.{HasOneAnswer};
ghost use Rattle.c_parse.specs.Symbol.{Symbols};
ghost use Rattle.c_parse.specs.Programs.{ProgramAt};
ghost use Rattle.dfi_base.specs.Limits.{nesting_limit};

/// Tokens are a program or have a first fault, and not two of these.
pub fn one_answer()
    ensures { (ts : Symbols) → HasOneAnswer ProgramAt nesting_limit ts }
{}

/// However deep it is, a program has no two trees.
pub fn one_tree()
    ensures { (ts : Symbols) (a b : List Item) → ProgramAt Anywhere ts a → ProgramAt Anywhere ts b → a ≡ b }
{}

/// A beginning of tokens that go on goes on.
pub fn prefix_continues()
    ensures { (ts us : Symbols) → Continues ProgramAt (ts ++ us) → Continues ProgramAt ts }
{}
