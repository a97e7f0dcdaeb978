ghost use Rattle.std.specs.Prelude.{◌≡◌, ◌<◌, IsTrue, false};
ghost use Rattle.tac_ir.specs.Effect.{divides};
ghost use Rattle.tac_ir.specs.GoodForm.{GoodForm, NamesExist};
ghost use Rattle.code_layout.specs.LayoutOf.{IsLayoutOf};
ghost use Rattle.tac_thread.specs.declared.doing.Doing.{Doing};
ghost use Rattle.tac_thread.specs.declared.want.Want.{Want};
ghost use Rattle.tac_thread.specs.Life.{temp, instr_of};
ghost use Rattle.tac_ir.specs.declared.code.Code.{Code};
ghost use Rattle.tac_ir.specs.declared.code.Instr.{Instr};
ghost use Rattle.tac_thread.specs.tools.Numbered.{is_numbered};
ghost use Rattle.tac_thread.specs.tools.Left.{is_silent};
ghost use Rattle.tac_thread.specs.Guests.{IsFramed};
ghost use Rattle.tac_thread.specs.Doing.{doing, given, tested, leaves, divided, IsWithin};

use crate::domain::Domain;
use crate::fetch::instr_at;
use crate::guest::Activation;
use crate::want::Want;
use code_layout::Layout;
use dfi_base::{DefNo, ReadNo};
use tac_ir::{BinOp, Code, Instr};

/// What a thread does next on its own, or what it asks for.
#[derive(Clone, Copy)]
pub enum Doing<V> {
    /// Writes a value to a temporary, and goes on behind the instruction.
    Gives { to: u32, value: V },
    Goes { at: u32 },
    Asks(Want<V>),
}

/// The value of a temporary.
pub fn temp<D: Domain>(a: &Activation<D::Value, D::Stack>, t: u32) -> D::Value
    ensures { result ≡ temp D.meaning a.now t }
{
    match a.temps.get(t as usize) {
        Some(value) => *value,
        None => D::int(0),
    }
}

/// What an activation does at its instruction, of which nothing is done yet.
pub fn doing_at<D: Domain>(
    c: &Code,
    l: &Layout,
    a: &Activation<D::Value, D::Stack>,
) -> Doing<D::Value>
    requires form { GoodForm c.now }
    requires laid { IsLayoutOf c.now l.now }
    requires frame { IsFramed D.meaning c.now a.now }
    ensures doing { result ≡ doing D.meaning c.now a.now (instr_of c.now a.now) }
    ensures within { IsWithin a.now.at result }
{
    match instr_at(c, a.fun, a.at) {
        None => Doing::Asks(Want::Ended(None)),
        Some(instr) => next_doing::<D>(c, l, a, instr),
    }
}

/// What an instruction does, of which nothing is done yet.
fn next_doing<D: Domain>(
    c: &Code,
    l: &Layout,
    a: &Activation<D::Value, D::Stack>,
    instr: &Instr,
) -> Doing<D::Value>
    requires form { GoodForm c.now }
    requires laid { IsLayoutOf c.now l.now }
    requires frame { IsFramed D.meaning c.now a.now }
    requires names { NamesExist c.now a.now.fun instr.now }
    requires numbers { IsTrue (is_numbered instr.now) }
    ensures { result ≡ doing D.meaning c.now a.now instr.now }
{
    match instr {
        Instr::Const { to, k } => gives(*to, D::int(*k)),
        Instr::Null { to } => gives(*to, D::null()),
        Instr::Un { to, op, a: x } => given(*to, D::un(*op, &temp::<D>(a, *x))),
        Instr::Bin { to, op, a: x, b: y } => divided::<D>(
            *to,
            *op,
            temp::<D>(a, *x),
            temp::<D>(a, *y),
        ),
        Instr::Addr { to, place } => gives(*to, D::place(c, l, a.fun, &a.stack, place)),
        Instr::Field { to, a: x, shape, k } => given(
            *to,
            D::field(c, l, &temp::<D>(a, *x), *shape, *k),
        ),
        Instr::Decay { to, a: x, shape } => given(*to, D::decay(c, l, &temp::<D>(a, *x), *shape)),
        Instr::Index {
            to,
            a: x,
            b: y,
            words,
        } => { given(*to, D::index(&temp::<D>(a, *x), &temp::<D>(a, *y), *words)) }
        Instr::Jump { target } => Doing::Goes { at: *target },
        Instr::Test { a: x, yes, no } => tested(*yes, *no, D::truth(&temp::<D>(a, *x))),
        _ => Doing::Asks(wanted::<D>(c, l, a, instr)),
    }
}

/// What an instruction asks for that does nothing on its own.
fn wanted<D: Domain>(
    c: &Code,
    l: &Layout,
    a: &Activation<D::Value, D::Stack>,
    instr: &Instr,
) -> Want<D::Value>
    requires form { GoodForm c.now }
    requires laid { IsLayoutOf c.now l.now }
    requires frame { IsFramed D.meaning c.now a.now }
    requires names { NamesExist c.now a.now.fun instr.now }
    requires numbers { IsTrue (is_numbered instr.now) }
    ensures { is_silent instr.now ≡ false → Doing.Asks result ≡ doing D.meaning c.now a.now instr.now }
{
    match instr {
        Instr::Get { place, read, .. } => reads(*read, D::place(c, l, a.fun, &a.stack, place)),
        Instr::Load { a: x, read, .. } => reads(*read, temp::<D>(a, *x)),
        Instr::Set { place, a: x, def } => writes(
            *def,
            D::place(c, l, a.fun, &a.stack, place),
            temp::<D>(a, *x),
        ),
        Instr::Store { a: x, b: y, def } => writes(*def, temp::<D>(a, *x), temp::<D>(a, *y)),
        Instr::Same { ne, a: x, b: y, .. } => Want::Same {
            a: temp::<D>(a, *x),
            b: temp::<D>(a, *y),
            ne: *ne,
        },
        Instr::New { a: x, site, .. } => Want::New {
            site: *site as u16,
            count: temp::<D>(a, *x),
        },
        Instr::Free { a: x } => Want::Free {
            word: temp::<D>(a, *x),
        },
        Instr::In { .. } => Want::In,
        Instr::Left { .. } => Want::Left,
        Instr::Out { a: x } => Want::Out {
            value: temp::<D>(a, *x),
        },
        Instr::Call { fun, .. } => Want::Call { fun: *fun },
        Instr::Ret { a: x, read } => returns::<D>(a, *x, *read),
        Instr::Turn => Want::Turn,
        Instr::Fork { entries, .. } => Want::Fork {
            branches: entries.len() as u32,
        },
        _ => Want::Ended(None),
    }
}

fn gives<V>(to: u32, value: V) -> Doing<V>
    ensures { result ≡ Doing.Gives to value }
{
    Doing::Gives { to, value }
}

fn reads<V>(read: u32, word: V) -> Want<V>
    requires { read < 65536 }
    ensures { result ≡ Want.Read (record { 0 = read }) word }
{
    let read = ReadNo(read as u16);
    Want::Read { read, word }
}

fn writes<V>(def: u32, word: V, value: V) -> Want<V>
    requires { def < 65536 }
    ensures { result ≡ Want.Write (record { 0 = def }) word value }
{
    let def = DefNo(def as u16);
    Want::Write { def, word, value }
}

// A return reads the link of its frame first, where it has a read for it.
fn returns<D: Domain>(
    a: &Activation<D::Value, D::Stack>,
    x: u32,
    read: Option<u32>,
) -> Want<D::Value>
    requires { IsTrue (is_numbered (Instr.Ret x read)) }
    ensures { (c : Code) → Doing.Asks result ≡ doing D.meaning c a.now (Instr.Ret x read) }
{
    match read {
        None => Want::Ended(Some(temp::<D>(a, x))),
        Some(read) => leaves(read, D::link(&a.stack)),
    }
}

fn given<V>(to: u32, value: Option<V>) -> Doing<V>
    ensures { result ≡ given to value }
{
    match value {
        None => Doing::Asks(Want::Bad),
        Some(value) => Doing::Gives { to, value },
    }
}

fn divided<D: Domain>(to: u32, op: BinOp, x: D::Value, y: D::Value) -> Doing<D::Value>
    ensures { result ≡ divided D.meaning to op x y }
{
    if divides(op) && matches!(D::truth(&y), Some(false)) {
        return Doing::Asks(Want::Zero);
    }
    given(to, D::bin(op, &x, &y))
}

fn divides(op: BinOp) -> bool
    ensures { result ≡ divides op }
{
    matches!(op, BinOp::Quo | BinOp::Rem)
}

fn tested<V>(yes: u32, no: u32, truth: Option<bool>) -> Doing<V>
    ensures { result ≡ tested yes no truth }
{
    match truth {
        None => Doing::Asks(Want::Bad),
        Some(true) => Doing::Goes { at: yes },
        Some(false) => Doing::Goes { at: no },
    }
}

fn leaves<V>(read: u32, link: Option<u32>) -> Want<V>
    requires { read < 65536 }
    ensures { Doing.Asks result ≡ leaves read link }
{
    match link {
        None => Want::Ret,
        Some(word) => Want::Pop {
            read: ReadNo(read as u16),
            word,
        },
    }
}
