ghost use Rattle.std.specs.Prelude.{◌≡◌, ◌++◌, ◌∷◌, IfOk, OnOk};
ghost use Rattle.std.specs.List.{flat_map};
ghost use Rattle.c_print.specs.Spelling.{spelled};
ghost use Rattle.c_print.specs.Text.{spaced, text_of};

use crate::spelling::spell;
use crate::tokens::Tokens;
use c_ast::Ast;
use c_lex::Kind;
use dfi_base::{Memory, Text};
use sqlite_items::Items;
use std::alloc::Global;

/// Writes these tokens with a space before each.
fn spell_more(text: &mut Vec<u8>, names: &Items<Text>, kinds: &[Kind]) -> Result<(), Memory>
    ensures { OnOk result (text.new.items ≡ text.old.items ++ flat_map (λ kind. 32 ∷ spelled names.now kind) kinds.now) }
{
    for kind in kinds {
        text.push(b' ')?;
        spell(text, names, *kind)?;
    }
    Ok(())
}

/// Writes these tokens with a space between each two.
pub fn spell_all(text: &mut Vec<u8>, names: &Items<Text>, kinds: &[Kind]) -> Result<(), Memory>
    ensures { OnOk result (text.new.items ≡ text.old.items ++ spaced names.now kinds.now) }
{
    let [first, others @ ..] = kinds else {
        return Ok(());
    };
    spell(text, names, *first)?;
    spell_more(text, names, others)
}

/// The canonical text of a tree. No byte stands behind the last token.
pub fn print(alloc: Global, ast: &Ast) -> Result<Vec<u8>, Memory>
    ensures { IfOk result (λ text. text.items ≡ text_of ast.now) }
{
    let mut tokens = Tokens::new(alloc);
    tokens.items(ast.items.as_slice())?;
    let mut text = Vec::new(alloc);
    spell_all(&mut text, &ast.names, tokens.kinds())?;
    Ok(text)
}
