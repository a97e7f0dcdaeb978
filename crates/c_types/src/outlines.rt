//! The outline of a text.

ghost use Rattle.std.specs.Prelude.{◌≡◌, Ok, map};
ghost use Rattle.c_types.specs.tools.Steps.{Finds};
ghost use Rattle.c_types.specs.tools.OutlineWalk as walk;

use crate::numbering::{Numbering, functions, tags};
use crate::outline::{Outline, Spelling};
use c_ast::Item;
use c_typed::TypeFault;
use dfi_base::Text;
use sqlite_items::Items;
use std::alloc::Global;

fn spelled_builtin(text: &[u8]) -> Spelling
    ensures { result ≡ walk.spelled_builtin text.now }
{
    if text == b"getint".as_slice() {
        Spelling::GetInt
    } else if text == b"left".as_slice() {
        Spelling::Left
    } else if text == b"putint".as_slice() {
        Spelling::PutInt
    } else if text == b"malloc".as_slice() {
        Spelling::Malloc
    } else if text == b"free".as_slice() {
        Spelling::Free
    } else {
        Spelling::Other
    }
}

fn spelling_of(text: &Text) -> Spelling
    ensures { result ≡ walk.spelling_of text.now }
{
    if text.bytes() == b"main".as_slice() {
        Spelling::Main
    } else {
        spelled_builtin(text.bytes())
    }
}

fn spellings(alloc: Global, names: &[Text]) -> Result<Items<Spelling>, TypeFault>
    ensures { Finds result (Ok (map walk.spelling_of names.now)) }
{
    let mut spellings = Items::new(alloc);
    for name in names {
        spellings.push(spelling_of(name))?;
    }
    Ok(spellings)
}

impl Outline {
    fn bare(
        alloc: Global,
        spellings: Items<Spelling>,
        tags: Numbering,
        functions: Numbering,
    ) -> Outline
        ensures { result ≡ walk.bare spellings tags functions }
    {
        let Numbering { table, count } = tags;
        let Numbering { table: numbers, .. } = functions;
        Outline {
            spellings,
            tags: table,
            structs: count,
            shapes: Items::new(alloc),
            numbers,
            functions: Items::new(alloc),
        }
    }

    /// The outline of these items, in which the names have these texts.
    pub fn new(alloc: Global, names: &[Text], items: &[Item]) -> Result<Outline, TypeFault>
        ensures { Finds result (Ok (walk.outline_of names.now items.now)) }
    {
        let spellings = spellings(alloc, names)?;
        let tags = tags(alloc, items)?;
        let functions = functions(alloc, items)?;
        let mut outline = Outline::bare(alloc, spellings, tags, functions);
        outline.add_shapes(alloc, items)?;
        outline.functions = outline.signatures(alloc, items)?;
        Ok(outline)
    }
}
