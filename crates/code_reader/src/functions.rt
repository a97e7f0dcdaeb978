//! Functions are read.

ghost use Rattle.std.specs.Prelude.{◌≡◌};
ghost use Rattle.line_format.specs.tools.Format.{read};
ghost use Rattle.line_format.specs.tools.Times.{times as times_format};
ghost use Rattle.line_format.specs.tools.Reads.{Reads};
ghost use Rattle.text_law.specs.tools.Instrs.{pair, lined};
ghost use Rattle.text_law.specs.tools.Parts.{var as var_format, head as head_format, fun as fun_format, funs as funs_format};

use crate::instrs::InstrLine;
use crate::operands::small;
use crate::sections::count;
use line_format::{Cursor, Failure, Part, times, word};
use sqlite_items::Items;
use std::alloc::Global;
use tac_ir::{Fun, Lined};

struct VarLine;

impl Part for VarLine {
    type Value = u32;

    ghost format = { var_format };

    fn read(_alloc: Global, cursor: &mut Cursor<'_>) -> Result<u32, Failure> {
        count(cursor, b"var ")
    }
}

/// The numbers in the line of a function: parameters, variables, instructions, line.
fn head(cursor: &mut Cursor<'_>) -> Result<(u32, (u32, (u32, u32))), Failure>
    ensures { Reads (read head_format cursor.old) result cursor.new }
{
    word(cursor, b"function ")?;
    let params = small(cursor, b' ')?;
    let vars = small(cursor, b' ')?;
    let code = small(cursor, b' ')?;
    let line = small(cursor, b'\n')?;
    Ok((params, (vars, (code, line))))
}

/// So many variables and instructions.
fn inside(
    alloc: Global,
    cursor: &mut Cursor<'_>,
    vars: u32,
    code: u32,
) -> Result<(Items<u32>, Items<Lined>), Failure>
    ensures { Reads (read (pair (times_format var_format vars) (times_format lined code)) cursor.old) result cursor.new }
{
    let vars = times::<VarLine>(alloc, cursor, u64::from(vars))?;
    let code = times::<InstrLine>(alloc, cursor, u64::from(code))?;
    Ok((vars, code))
}

struct FunPart;

impl Part for FunPart {
    type Value = Fun;

    ghost format = { fun_format };

    fn read(alloc: Global, cursor: &mut Cursor<'_>) -> Result<Fun, Failure> {
        let (params, (vars, (code, line))) = head(cursor)?;
        let (vars, code) = inside(alloc, cursor, vars, code)?;
        Ok(Fun {
            params,
            vars,
            code,
            line,
        })
    }
}

/// Which function is main, and all of them.
pub(crate) fn funs(alloc: Global, cursor: &mut Cursor<'_>) -> Result<(u32, Items<Fun>), Failure>
    ensures { Reads (read funs_format cursor.old) result cursor.new }
{
    let many = count(cursor, b"functions ")?;
    let main = count(cursor, b"main ")?;
    let funs = times::<FunPart>(alloc, cursor, u64::from(many))?;
    Ok((main, funs))
}
