//! Instructions are written.

ghost use Rattle.std.specs.Prelude.{◌≡◌, ◌++◌, ◌∷◌, [], OnOk};
ghost use Rattle.std.specs.Fmt.{decimal};
ghost use Rattle.std.specs.String.{string_bytes};
ghost use Rattle.tac_ir.specs.declared.code.Instr.{Instr};
ghost use Rattle.line_format.specs.Lines.{line as line_text};
ghost use Rattle.text_law.specs.ModuleText.{lined_words, temp as temp_text};
ghost use Rattle.text_law.specs.IsModule.{Is32Bits, IsLined};
ghost use Rattle.code_writer.specs.tools.InstrLine.{Adds};

use crate::operands::place;
use crate::words::{bin_name, bin_word, equality, un_word};
use dfi_base::Memory;
use line_writer::{Line, numbers_to_end};
use tac_ir::{BinOp, Instr, Lined, Place, UnOp};

fn constant(text: &mut String, at: u32, to: u32, k: i32) -> Result<(), Memory>
    ensures { OnOk result (Adds at (Instr.Const to k) (string_bytes text.old) (string_bytes text.new)) }
{
    writeln!(text, "{at} const t{to} {k}")?;
    Ok(())
}

/// A word and a temporary.
fn one_temp(text: &mut String, at: u32, word: &str, temp: u32) -> Result<(), Memory>
    ensures text { OnOk result (string_bytes text.new ≡ string_bytes text.old ++ line_text (decimal at ∷ word.now ∷ temp_text temp ∷ []) []) }
    ensures fit { OnOk result (Is32Bits at × Is32Bits temp) }
{
    writeln!(text, "{at} {word} t{temp}")?;
    Ok(())
}

fn unary(text: &mut String, at: u32, to: u32, op: UnOp, a: u32) -> Result<(), Memory>
    ensures { OnOk result (Adds at (Instr.Un to op a) (string_bytes text.old) (string_bytes text.new)) }
{
    let word = un_word(op);
    writeln!(text, "{at} un t{to} {word} t{a}")?;
    Ok(())
}

fn binary(text: &mut String, at: u32, to: u32, op: BinOp, a: u32, b: u32) -> Result<(), Memory>
    ensures { OnOk result (Adds at (Instr.Bin to op a b) (string_bytes text.old) (string_bytes text.new)) }
{
    let name = bin_name(op);
    let word = bin_word(op);
    writeln!(text, "{at} {name} t{to} {word} t{a} t{b}")?;
    Ok(())
}

fn address(text: &mut String, at: u32, to: u32, to_place: &Place) -> Result<(), Memory>
    ensures { OnOk result (Adds at (Instr.Addr to to_place.now) (string_bytes text.old) (string_bytes text.new)) }
{
    write!(text, "{at} addr t{to} ")?;
    place(text, to_place)?;
    writeln!(text)?;
    Ok(())
}

fn field(text: &mut String, at: u32, to: u32, a: u32, shape: u32, k: u32) -> Result<(), Memory>
    ensures { OnOk result (Adds at (Instr.Field to a shape k) (string_bytes text.old) (string_bytes text.new)) }
{
    writeln!(text, "{at} field t{to} t{a} {shape} {k}")?;
    Ok(())
}

/// A word, two temporaries and a number.
fn temps_and_number(
    text: &mut String,
    at: u32,
    word: &str,
    a: u32,
    b: u32,
    number: u32,
) -> Result<(), Memory>
    ensures text { OnOk result (string_bytes text.new ≡ string_bytes text.old ++ line_text (decimal at ∷ word.now ∷ temp_text a ∷ temp_text b ∷ decimal number ∷ []) []) }
    ensures fit { OnOk result (Is32Bits at × Is32Bits a × Is32Bits b × Is32Bits number) }
{
    writeln!(text, "{at} {word} t{a} t{b} {number}")?;
    Ok(())
}

fn index(text: &mut String, at: u32, to: u32, a: u32, b: u32, words: u32) -> Result<(), Memory>
    ensures { OnOk result (Adds at (Instr.Index to a b words) (string_bytes text.old) (string_bytes text.new)) }
{
    writeln!(text, "{at} index t{to} t{a} t{b} {words}")?;
    Ok(())
}

fn get(text: &mut String, at: u32, to: u32, from: &Place, read: u32) -> Result<(), Memory>
    ensures { OnOk result (Adds at (Instr.Get to from.now read) (string_bytes text.old) (string_bytes text.new)) }
{
    write!(text, "{at} get t{to} ")?;
    place(text, from)?;
    writeln!(text, " {read}")?;
    Ok(())
}

fn set(text: &mut String, at: u32, to: &Place, a: u32, def: u32) -> Result<(), Memory>
    ensures { OnOk result (Adds at (Instr.Set to.now a def) (string_bytes text.old) (string_bytes text.new)) }
{
    write!(text, "{at} set ")?;
    place(text, to)?;
    writeln!(text, " t{a} {def}")?;
    Ok(())
}

fn same(text: &mut String, at: u32, to: u32, ne: bool, a: u32, b: u32) -> Result<(), Memory>
    ensures { OnOk result (Adds at (Instr.Same to ne a b) (string_bytes text.old) (string_bytes text.new)) }
{
    let word = equality(ne);
    writeln!(text, "{at} same t{to} {word} t{a} t{b}")?;
    Ok(())
}

fn call(text: &mut String, at: u32, to: u32, fun: u32, def: u32, args: &[u32]) -> Result<(), Memory>
    ensures { OnOk result (Adds at (Instr.Call to fun def args.now) (string_bytes text.old) (string_bytes text.new)) }
{
    write!(text, "{at} call t{to} {fun} {def}")?;
    numbers_to_end(text, " t", args)?;
    Ok(())
}

fn ret(text: &mut String, at: u32, a: u32, read: Option<u32>) -> Result<(), Memory>
    ensures { OnOk result (Adds at (Instr.Ret a read) (string_bytes text.old) (string_bytes text.new)) }
{
    match read {
        None => writeln!(text, "{at} ret t{a}")?,
        Some(read) => writeln!(text, "{at} ret t{a} {read}")?,
    }
    Ok(())
}

fn jump(text: &mut String, at: u32, target: u32) -> Result<(), Memory>
    ensures { OnOk result (Adds at (Instr.Jump target) (string_bytes text.old) (string_bytes text.new)) }
{
    writeln!(text, "{at} jump {target}")?;
    Ok(())
}

fn test(text: &mut String, at: u32, a: u32, yes: u32, no: u32) -> Result<(), Memory>
    ensures { OnOk result (Adds at (Instr.Test a yes no) (string_bytes text.old) (string_bytes text.new)) }
{
    writeln!(text, "{at} test t{a} {yes} {no}")?;
    Ok(())
}

/// A word and nothing else.
fn alone(text: &mut String, at: u32, word: &str) -> Result<(), Memory>
    ensures text { OnOk result (string_bytes text.new ≡ string_bytes text.old ++ line_text (decimal at ∷ word.now ∷ []) []) }
    ensures fit { OnOk result (Is32Bits at) }
{
    writeln!(text, "{at} {word}")?;
    Ok(())
}

fn fork(text: &mut String, at: u32, join: u32, entries: &[u32]) -> Result<(), Memory>
    ensures { OnOk result (Adds at (Instr.Fork join entries.now) (string_bytes text.old) (string_bytes text.new)) }
{
    write!(text, "{at} fork {join}")?;
    numbers_to_end(text, " ", entries)?;
    Ok(())
}

fn instr_line(text: &mut String, at: u32, instr: &Instr) -> Result<(), Memory>
    ensures { OnOk result (Adds at instr.now (string_bytes text.old) (string_bytes text.new)) }
{
    match instr {
        Instr::Const { to, k } => constant(text, at, *to, *k),
        Instr::Null { to } => one_temp(text, at, "null", *to),
        Instr::Un { to, op, a } => unary(text, at, *to, *op, *a),
        Instr::Bin { to, op, a, b } => binary(text, at, *to, *op, *a, *b),
        Instr::Addr { to, place } => address(text, at, *to, place),
        Instr::Field { to, a, shape, k } => field(text, at, *to, *a, *shape, *k),
        Instr::Decay { to, a, shape } => temps_and_number(text, at, "decay", *to, *a, *shape),
        Instr::Index { to, a, b, words } => index(text, at, *to, *a, *b, *words),
        Instr::Get { to, place, read } => get(text, at, *to, place, *read),
        Instr::Load { to, a, read } => temps_and_number(text, at, "load", *to, *a, *read),
        Instr::Set { place, a, def } => set(text, at, place, *a, *def),
        Instr::Store { a, b, def } => temps_and_number(text, at, "store", *a, *b, *def),
        Instr::Same { to, ne, a, b } => same(text, at, *to, *ne, *a, *b),
        Instr::New { to, a, site } => temps_and_number(text, at, "new", *to, *a, *site),
        Instr::Free { a } => one_temp(text, at, "free", *a),
        Instr::In { to } => one_temp(text, at, "in", *to),
        Instr::Left { to } => one_temp(text, at, "left", *to),
        Instr::Out { a } => one_temp(text, at, "out", *a),
        Instr::Call { to, fun, def, args } => call(text, at, *to, *fun, *def, args.as_slice()),
        Instr::Ret { a, read } => ret(text, at, *a, *read),
        Instr::Jump { target } => jump(text, at, *target),
        Instr::Test { a, yes, no } => test(text, at, *a, *yes, *no),
        Instr::Turn => alone(text, at, "turn"),
        Instr::Fork { join, entries } => fork(text, at, *join, entries.as_slice()),
        Instr::End => alone(text, at, "end"),
    }
}

/// The lines of instructions.
pub(crate) struct InstrLine;

impl Line for InstrLine {
    type Value = Lined;

    ghost words = { lined_words };

    ghost fits = { IsLined };

    fn write(text: &mut String, value: &Lined) -> Result<(), Memory> {
        instr_line(text, value.line, &value.instr)
    }
}
