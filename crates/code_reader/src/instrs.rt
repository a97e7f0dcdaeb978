//! Instructions are read.

ghost use Rattle.std.specs.Prelude.{◌≡◌};
ghost use Rattle.line_format.specs.tools.Format.{read};
ghost use Rattle.line_format.specs.tools.Reads.{Reads};
ghost use Rattle.text_law.specs.tools.Instrs.{body as body_format, instr as instr_format, lined as lined_format, pair, temp as temp_format, number as number_format};
ghost use Rattle.text_law.specs.declared.opcode.Opcode.{Opcode};

use crate::operands::{place_and, small, temp, temps_and_number};
use crate::words::{bin_op, div_op, equality, instr_word, un_op};
use line_format::{Cursor, Failure, Part, number_and_members, number_and_option, signed_and, word};
use std::alloc::Global;
use tac_ir::{Instr, Lined};
use text_law::Opcode;

fn constant(cursor: &mut Cursor<'_>) -> Result<Instr, Failure>
    ensures { Reads (read (body_format Opcode.Const) cursor.old) result cursor.new }
{
    let to = temp(cursor, b' ')?;
    let k = signed_and(cursor, b'\n')?;
    Ok(Instr::Const { to, k })
}

fn unary(cursor: &mut Cursor<'_>) -> Result<Instr, Failure>
    ensures { Reads (read (body_format Opcode.Un) cursor.old) result cursor.new }
{
    let to = temp(cursor, b' ')?;
    let op = un_op(cursor)?;
    let a = temp(cursor, b'\n')?;
    Ok(Instr::Un { to, op, a })
}

/// Two temporaries, to the end of the line.
fn two_temps(cursor: &mut Cursor<'_>) -> Result<(u32, u32), Failure>
    ensures { Reads (read (pair (temp_format 32) (temp_format 10)) cursor.old) result cursor.new }
{
    let a = temp(cursor, b' ')?;
    let b = temp(cursor, b'\n')?;
    Ok((a, b))
}

fn binary(cursor: &mut Cursor<'_>) -> Result<Instr, Failure>
    ensures { Reads (read (body_format Opcode.Bin) cursor.old) result cursor.new }
{
    let to = temp(cursor, b' ')?;
    let op = bin_op(cursor)?;
    let (a, b) = two_temps(cursor)?;
    Ok(Instr::Bin { to, op, a, b })
}

fn division(cursor: &mut Cursor<'_>) -> Result<Instr, Failure>
    ensures { Reads (read (body_format Opcode.Div) cursor.old) result cursor.new }
{
    let to = temp(cursor, b' ')?;
    let op = div_op(cursor)?;
    let (a, b) = two_temps(cursor)?;
    Ok(Instr::Bin { to, op, a, b })
}

#[tactic(auto, using(text_law::proofs::Instructions::dotted_line))]
fn address(alloc: Global, cursor: &mut Cursor<'_>) -> Result<Instr, Failure>
    ensures { Reads (read (body_format Opcode.Addr) cursor.old) result cursor.new }
{
    let to = temp(cursor, b' ')?;
    let place = place_and(alloc, cursor, b'\n')?;
    Ok(Instr::Addr { to, place })
}

/// Two numbers, to the end of the line.
fn two_numbers(cursor: &mut Cursor<'_>) -> Result<(u32, u32), Failure>
    ensures { Reads (read (pair (number_format 32) (number_format 10)) cursor.old) result cursor.new }
{
    let a = small(cursor, b' ')?;
    let b = small(cursor, b'\n')?;
    Ok((a, b))
}

fn field(cursor: &mut Cursor<'_>) -> Result<Instr, Failure>
    ensures { Reads (read (body_format Opcode.Field) cursor.old) result cursor.new }
{
    let to = temp(cursor, b' ')?;
    let a = temp(cursor, b' ')?;
    let (shape, k) = two_numbers(cursor)?;
    Ok(Instr::Field { to, a, shape, k })
}

fn decay(cursor: &mut Cursor<'_>) -> Result<Instr, Failure>
    ensures { Reads (read (body_format Opcode.Decay) cursor.old) result cursor.new }
{
    let (to, (a, shape)) = temps_and_number(cursor)?;
    Ok(Instr::Decay { to, a, shape })
}

fn index(cursor: &mut Cursor<'_>) -> Result<Instr, Failure>
    ensures { Reads (read (body_format Opcode.Index) cursor.old) result cursor.new }
{
    let to = temp(cursor, b' ')?;
    let (a, (b, words)) = temps_and_number(cursor)?;
    Ok(Instr::Index { to, a, b, words })
}

#[tactic(auto, using(text_law::proofs::Instructions::dotted_space))]
fn get(alloc: Global, cursor: &mut Cursor<'_>) -> Result<Instr, Failure>
    ensures { Reads (read (body_format Opcode.Get) cursor.old) result cursor.new }
{
    let to = temp(cursor, b' ')?;
    let place = place_and(alloc, cursor, b' ')?;
    let read = small(cursor, b'\n')?;
    Ok(Instr::Get { to, place, read })
}

fn load(cursor: &mut Cursor<'_>) -> Result<Instr, Failure>
    ensures { Reads (read (body_format Opcode.Load) cursor.old) result cursor.new }
{
    let (to, (a, read)) = temps_and_number(cursor)?;
    Ok(Instr::Load { to, a, read })
}

/// A temporary and a number, to the end of the line.
fn temp_and_number(cursor: &mut Cursor<'_>) -> Result<(u32, u32), Failure>
    ensures { Reads (read (pair (temp_format 32) (number_format 10)) cursor.old) result cursor.new }
{
    let a = temp(cursor, b' ')?;
    let number = small(cursor, b'\n')?;
    Ok((a, number))
}

#[tactic(auto, using(text_law::proofs::Instructions::dotted_space))]
fn set(alloc: Global, cursor: &mut Cursor<'_>) -> Result<Instr, Failure>
    ensures { Reads (read (body_format Opcode.Set) cursor.old) result cursor.new }
{
    let place = place_and(alloc, cursor, b' ')?;
    let (a, def) = temp_and_number(cursor)?;
    Ok(Instr::Set { place, a, def })
}

fn store(cursor: &mut Cursor<'_>) -> Result<Instr, Failure>
    ensures { Reads (read (body_format Opcode.Store) cursor.old) result cursor.new }
{
    let (a, (b, def)) = temps_and_number(cursor)?;
    Ok(Instr::Store { a, b, def })
}

fn same(cursor: &mut Cursor<'_>) -> Result<Instr, Failure>
    ensures { Reads (read (body_format Opcode.Same) cursor.old) result cursor.new }
{
    let to = temp(cursor, b' ')?;
    let ne = equality(cursor)?;
    let (a, b) = two_temps(cursor)?;
    Ok(Instr::Same { to, ne, a, b })
}

fn new(cursor: &mut Cursor<'_>) -> Result<Instr, Failure>
    ensures { Reads (read (body_format Opcode.New) cursor.old) result cursor.new }
{
    let (to, (a, site)) = temps_and_number(cursor)?;
    Ok(Instr::New { to, a, site })
}

#[tactic(auto, using(text_law::proofs::Instructions::spaced))]
fn call(alloc: Global, cursor: &mut Cursor<'_>) -> Result<Instr, Failure>
    ensures { Reads (read (body_format Opcode.Call) cursor.old) result cursor.new }
{
    let to = temp(cursor, b' ')?;
    let fun = small(cursor, b' ')?;
    let (def, args) = number_and_members(alloc, cursor, b"t", b' ', b'\n', false)?;
    Ok(Instr::Call { to, fun, def, args })
}

fn ret(cursor: &mut Cursor<'_>) -> Result<Instr, Failure>
    ensures { Reads (read (body_format Opcode.Ret) cursor.old) result cursor.new }
{
    word(cursor, b"t")?;
    let (a, read) = number_and_option(cursor, b' ', b'\n')?;
    Ok(Instr::Ret { a, read })
}

fn test(cursor: &mut Cursor<'_>) -> Result<Instr, Failure>
    ensures { Reads (read (body_format Opcode.Test) cursor.old) result cursor.new }
{
    let a = temp(cursor, b' ')?;
    let (yes, no) = two_numbers(cursor)?;
    Ok(Instr::Test { a, yes, no })
}

#[tactic(auto, using(text_law::proofs::Instructions::spaced))]
fn fork(alloc: Global, cursor: &mut Cursor<'_>) -> Result<Instr, Failure>
    ensures { Reads (read (body_format Opcode.Fork) cursor.old) result cursor.new }
{
    let (join, entries) = number_and_members(alloc, cursor, b"", b' ', b'\n', false)?;
    Ok(Instr::Fork { join, entries })
}

/// What comes behind the word of an instruction.
fn body(alloc: Global, cursor: &mut Cursor<'_>, opcode: Opcode) -> Result<Instr, Failure>
    ensures { Reads (read (body_format opcode) cursor.old) result cursor.new }
{
    match opcode {
        Opcode::Const => constant(cursor),
        Opcode::Null => Ok(Instr::Null {
            to: temp(cursor, b'\n')?,
        }),
        Opcode::Un => unary(cursor),
        Opcode::Bin => binary(cursor),
        Opcode::Div => division(cursor),
        Opcode::Addr => address(alloc, cursor),
        Opcode::Field => field(cursor),
        Opcode::Decay => decay(cursor),
        Opcode::Index => index(cursor),
        Opcode::Get => get(alloc, cursor),
        Opcode::Load => load(cursor),
        Opcode::Set => set(alloc, cursor),
        Opcode::Store => store(cursor),
        Opcode::Same => same(cursor),
        Opcode::New => new(cursor),
        Opcode::Free => Ok(Instr::Free {
            a: temp(cursor, b'\n')?,
        }),
        Opcode::In => Ok(Instr::In {
            to: temp(cursor, b'\n')?,
        }),
        Opcode::Left => Ok(Instr::Left {
            to: temp(cursor, b'\n')?,
        }),
        Opcode::Out => Ok(Instr::Out {
            a: temp(cursor, b'\n')?,
        }),
        Opcode::Call => call(alloc, cursor),
        Opcode::Ret => ret(cursor),
        Opcode::Jump => Ok(Instr::Jump {
            target: small(cursor, b'\n')?,
        }),
        Opcode::Test => test(cursor),
        Opcode::Turn => Ok(Instr::Turn),
        Opcode::Fork => fork(alloc, cursor),
        Opcode::End => Ok(Instr::End),
    }
}

fn any_instr(alloc: Global, cursor: &mut Cursor<'_>) -> Result<Instr, Failure>
    ensures { Reads (read instr_format cursor.old) result cursor.new }
{
    let opcode = instr_word(cursor)?;
    body(alloc, cursor, opcode)
}

/// The lines of instructions.
pub(crate) struct InstrLine;

impl Part for InstrLine {
    type Value = Lined;

    ghost format = { lined_format };

    fn read(alloc: Global, cursor: &mut Cursor<'_>) -> Result<Lined, Failure> {
        let line = small(cursor, b' ')?;
        let instr = any_instr(alloc, cursor)?;
        Ok(Lined { line, instr })
    }
}
