//! Declarations.

ghost use Rattle.std.specs.Prelude.{◌≡◌, ◌++◌, ◌∷◌, OnOk};
ghost use Rattle.std.specs.List.{flat_map};
ghost use Rattle.c_lex.specs.declared.token.Mark.{Mark};
ghost use Rattle.c_print.specs.TreeTokens as spec;

use crate::tokens::Tokens;
use c_ast::{Decl, DeclItem, Expr};
use c_lex::Mark;
use dfi_base::Memory;

impl Tokens {
    fn initial_value_if_any(&mut self, value: &Option<Expr>) -> Result<(), Memory>
        ensures { OnOk result (self.new ≡ self.old ++ spec.if_some (λ e. spec.mark Mark.Assign ∷ spec.of_whole e) value.now) }
    {
        match value {
            None => Ok(()),
            Some(value) => {
                self.mark(Mark::Assign)?;
                self.bare(value)
            }
        }
    }

    fn decl_item(&mut self, item: &DeclItem) -> Result<(), Memory>
        ensures { OnOk result (self.new ≡ self.old ++ spec.of_decl_item item.now) }
    {
        self.declarator(&item.declarator)?;
        self.initial_value_if_any(&item.value)
    }

    fn more_decl_items(&mut self, items: &[DeclItem]) -> Result<(), Memory>
        ensures { OnOk result (self.new ≡ self.old ++ flat_map (λ i. spec.mark Mark.Comma ∷ spec.of_decl_item i) items.now) }
    {
        for item in items {
            self.mark(Mark::Comma)?;
            self.decl_item(item)?;
        }
        Ok(())
    }

    fn decl_items(&mut self, items: &[DeclItem]) -> Result<(), Memory>
        ensures { OnOk result (self.new ≡ self.old ++ spec.with_commas spec.of_decl_item items.now) }
    {
        let [first, others @ ..] = items else {
            return Ok(());
        };
        self.decl_item(first)?;
        self.more_decl_items(others)
    }

    pub fn decl(&mut self, decl: &Decl) -> Result<(), Memory>
        ensures { OnOk result (self.new ≡ self.old ++ spec.of_decl decl.now) }
    {
        self.base(decl.base)?;
        self.decl_items(decl.items.as_slice())?;
        self.mark(Mark::Semicolon)
    }
}
