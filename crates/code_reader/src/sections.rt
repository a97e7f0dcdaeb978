//! The parts of the code are read.

ghost use Rattle.std.specs.Prelude.{◌≡◌};
ghost use Rattle.line_format.specs.tools.Format.{read};
ghost use Rattle.line_format.specs.tools.Times.{times as times_format};
ghost use Rattle.line_format.specs.tools.Reads.{Reads};
ghost use Rattle.text_law.specs.tools.Instrs.{number};
ghost use Rattle.text_law.specs.tools.Parts.{shape as shape_format, shape_body as body_format, global as global_format, site as site_format, behind, section as section_format, code as code_format};
ghost use Rattle.text_law.specs.declared.opcode.ShapeWord.{ShapeWord};

use crate::functions::funs;
use crate::operands::small;
use crate::words::shape_word;
use line_format::{Cursor, Failure, Part, any_members, signed_and, times, word};
use sqlite_items::Items;
use std::alloc::Global;
use tac_ir::{Code, Global as Variable, Shape, Site};
use text_law::ShapeWord;

/// A number to the end of the line, behind a word.
pub fn count(cursor: &mut Cursor<'_>, name: &[u8]) -> Result<u32, Failure>
    ensures { Reads (read (behind name.now (number 10)) cursor.old) result cursor.new }
{
    word(cursor, name)?;
    small(cursor, b'\n')
}

/// How many there are, and they.
pub fn section<P: Part>(
    alloc: Global,
    cursor: &mut Cursor<'_>,
    name: &[u8],
) -> Result<Items<P::Value>, Failure>
    ensures { Reads (read (section_format name.now P.format) cursor.old) result cursor.new }
{
    let many = count(cursor, name)?;
    times::<P>(alloc, cursor, u64::from(many))
}

struct ShapeLine;

#[tactic(auto, using(text_law::proofs::Instructions::spaced))]
fn shape_body(alloc: Global, cursor: &mut Cursor<'_>, word: ShapeWord) -> Result<Shape, Failure>
    ensures { Reads (read (body_format word) cursor.old) result cursor.new }
{
    match word {
        ShapeWord::Int => Ok(Shape::Int),
        ShapeWord::Ptr => Ok(Shape::Ptr),
        ShapeWord::Array => {
            let len = small(cursor, b' ')?;
            let item = small(cursor, b'\n')?;
            Ok(Shape::Array { len, item })
        }
        ShapeWord::Struct => {
            let parts = any_members(alloc, cursor, b"", b' ', b'\n', false)?;
            Ok(Shape::Struct { parts })
        }
    }
}

impl Part for ShapeLine {
    type Value = Shape;

    ghost format = { shape_format };

    fn read(alloc: Global, cursor: &mut Cursor<'_>) -> Result<Shape, Failure> {
        let word = shape_word(cursor)?;
        shape_body(alloc, cursor, word)
    }
}

struct GlobalLine;

impl Part for GlobalLine {
    type Value = Variable;

    ghost format = { global_format };

    fn read(_alloc: Global, cursor: &mut Cursor<'_>) -> Result<Variable, Failure> {
        let shape = small(cursor, b' ')?;
        let start = signed_and(cursor, b' ')?;
        let line = small(cursor, b'\n')?;
        Ok(Variable { shape, start, line })
    }
}

struct SiteLine;

impl Part for SiteLine {
    type Value = Site;

    ghost format = { site_format };

    fn read(_alloc: Global, cursor: &mut Cursor<'_>) -> Result<Site, Failure> {
        let shape = small(cursor, b' ')?;
        let line = small(cursor, b'\n')?;
        Ok(Site { shape, line })
    }
}

pub fn code_sections(alloc: Global, cursor: &mut Cursor<'_>) -> Result<Code, Failure>
    ensures { Reads (read code_format cursor.old) result cursor.new }
{
    let shapes = section::<ShapeLine>(alloc, cursor, b"shapes ")?;
    let globals = section::<GlobalLine>(alloc, cursor, b"globals ")?;
    let sites = section::<SiteLine>(alloc, cursor, b"sites ")?;
    let (main, funs) = funs(alloc, cursor)?;
    Ok(Code {
        shapes,
        globals,
        sites,
        main,
        funs,
    })
}
