ghost use Rattle.std.specs.Prelude.{◌≡◌, map, IfOk};
ghost use Rattle.test_samples.specs.Rows.{place_at, instr_of, line_of};

use sqlite_items::Items;
use std::alloc::{AllocError, Global};
use tac_ir::{BinOp, Instr, Lined, Place};

/// A whole variable.
#[derive(Clone, Copy)]
pub enum Spot {
    Global(u32),
    Local(u32),
}

/// An instruction, with its numbers in the order of a module's text: the temporary that it writes, what it uses, and its read or
/// definition last.
#[derive(Clone, Copy)]
pub enum Row {
    Const(u32, i32),
    Bin(u32, BinOp, u32, u32),
    Addr(u32, Spot),
    Decay(u32, u32, u32),
    /// The second temporary, moved by as many words as the third one says.
    Index(u32, u32, u32),
    Get(u32, Spot, u32),
    Set(Spot, u32, u32),
    Load(u32, u32, u32),
    Store(u32, u32, u32),
    /// As many items of the heap site that stands last as the second number's temporary says.
    New(u32, u32, u32),
    Free(u32),
    In(u32),
    Left(u32),
    Out(u32),
    /// The call of a function without parameters.
    Call(u32, u32, u32),
    /// The call of a function with one parameter. Its argument stands last.
    Pass(u32, u32, u32, u32),
    /// The return of `main`.
    Halt(u32),
    Ret(u32, u32),
    Jump(u32),
    Test(u32, u32, u32),
    Turn,
    /// A fork into two branches: where it goes on, and where they begin.
    Fork(u32, u32, u32),
    /// At index 0, a fork into fifteen branches of one instruction each.
    Fifteen,
    End,
}

/// Where the branches of `Row::Fifteen` begin.
const FIFTEEN: [u32; 15] = [1, 2, 3, 4, 5, 6, 7, 8, 9, 10, 11, 12, 13, 14, 15];

fn place_at(alloc: Global, spot: Spot) -> Place
    ensures { result ≡ place_at spot }
{
    let path = Items::new(alloc);
    match spot {
        Spot::Global(var) => Place::Global { var, path },
        Spot::Local(var) => Place::Local { var, path },
    }
}

fn instr_of(alloc: Global, row: Row) -> Result<Instr, AllocError>
    ensures { IfOk result (λ i. i ≡ instr_of row) }
{
    Ok(match row {
        Row::Const(to, k) => Instr::Const { to, k },
        Row::Bin(to, op, a, b) => Instr::Bin { to, op, a, b },
        Row::Addr(to, spot) => Instr::Addr {
            to,
            place: place_at(alloc, spot),
        },
        Row::Decay(to, a, shape) => Instr::Decay { to, a, shape },
        Row::Index(to, a, b) => Instr::Index { to, a, b, words: 1 },
        Row::Get(to, spot, read) => Instr::Get {
            to,
            place: place_at(alloc, spot),
            read,
        },
        Row::Set(spot, a, def) => Instr::Set {
            place: place_at(alloc, spot),
            a,
            def,
        },
        Row::Load(to, a, read) => Instr::Load { to, a, read },
        Row::Store(a, b, def) => Instr::Store { a, b, def },
        Row::New(to, a, site) => Instr::New { to, a, site },
        Row::Free(a) => Instr::Free { a },
        Row::In(to) => Instr::In { to },
        Row::Left(to) => Instr::Left { to },
        Row::Out(a) => Instr::Out { a },
        Row::Call(to, fun, def) => Instr::Call {
            to,
            fun,
            def,
            args: Items::new(alloc),
        },
        Row::Pass(to, fun, def, a) => Instr::Call {
            to,
            fun,
            def,
            args: Items::from_slice(alloc, &[a])?,
        },
        Row::Halt(a) => Instr::Ret { a, read: None },
        Row::Ret(a, read) => Instr::Ret {
            a,
            read: Some(read),
        },
        Row::Jump(target) => Instr::Jump { target },
        Row::Test(a, yes, no) => Instr::Test { a, yes, no },
        Row::Turn => Instr::Turn,
        Row::Fork(join, first, second) => Instr::Fork {
            join,
            entries: Items::from_slice(alloc, &[first, second])?,
        },
        Row::Fifteen => Instr::Fork {
            join: 16,
            entries: Items::from_slice(alloc, &FIFTEEN)?,
        },
        Row::End => Instr::End,
    })
}

pub fn lines_of(alloc: Global, rows: &[Row]) -> Result<Vec<Lined>, AllocError>
    ensures { IfOk result (λ lines. lines.items ≡ map line_of rows.now) }
{
    let mut lines = Vec::new(alloc);
    for row in rows {
        let instr = instr_of(alloc, *row)?;
        lines.push(Lined { line: 1, instr })?;
    }
    Ok(lines)
}
