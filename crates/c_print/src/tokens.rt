//! The tokens of a text, as they are gathered.

ghost use Rattle.std.specs.Prelude.{◌≡◌, ◌++◌, ◌∷◌, [], OnOk};
ghost use Rattle.c_print.specs.TreeTokens as spec;

use c_ast::Ident;
use c_lex::{Kind, Mark, Word};
use dfi_base::Memory;
use sqlite_items::Items;
use std::alloc::Global;
use std::marker::Model;

#[derive(Drop)]
pub struct Tokens {
    kinds: Items<Kind>,
}

impl Model for Tokens {
    ghost use Rattle.std.specs.Prelude.{List};
    ghost use Rattle.c_lex.specs.declared.token.Kind.{Kind};

    ghost Value = { List Kind };

    ghost view = { λ tokens. tokens.kinds };
}

impl Tokens {
    /// No token.
    pub fn new(alloc: Global) -> Tokens
        ensures { result ≡ [] }
    {
        Tokens {
            kinds: Items::new(alloc),
        }
    }

    pub fn kinds(&self) -> &[Kind]
        ensures { result.now ≡ self.now }
    {
        self.kinds.as_slice()
    }

    pub fn word(&mut self, word: Word) -> Result<(), Memory>
        ensures { OnOk result (self.new ≡ self.old ++ spec.word word ∷ []) }
    {
        self.kinds.push(Kind::Word(word))?;
        Ok(())
    }

    pub fn mark(&mut self, mark: Mark) -> Result<(), Memory>
        ensures { OnOk result (self.new ≡ self.old ++ spec.mark mark ∷ []) }
    {
        self.kinds.push(Kind::Mark(mark))?;
        Ok(())
    }

    pub fn name(&mut self, ident: Ident) -> Result<(), Memory>
        ensures { OnOk result (self.new ≡ self.old ++ spec.name ident ∷ []) }
    {
        self.kinds.push(Kind::Id(ident.name))?;
        Ok(())
    }

    pub fn number(&mut self, value: i32) -> Result<(), Memory>
        ensures { OnOk result (self.new ≡ self.old ++ spec.number value ∷ []) }
    {
        self.kinds.push(Kind::Num(value))?;
        Ok(())
    }
}
