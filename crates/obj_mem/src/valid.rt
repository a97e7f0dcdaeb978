ghost use Rattle.std.specs.Prelude.{◌≡◌, ◌<◌, length, reverse};
ghost use Rattle.obj_mem.specs.Valid.{where_so, differs_or_not, is_usable, read_at, write_at, compared, freed, answer_of};

use crate::event::{Event, SrcAnswer, Stamp};
use crate::living::{is_live, is_live_block, next_block, next_maker};
use crate::number::{count_left, first_left};
use crate::value::{Obj, Value, is_same};
use crate::word::last_value;
use dfi_base::Name;

/// What an event of the thread of this name is answered after these, the oldest first. None: it is invalid.
pub fn valid_answer(events: &[Stamp], name: Name, next: &Event) -> Option<SrcAnswer>
    requires { length events.now < 2147483648 }
    ensures { result ≡ answer_of (reverse events.now) name.0 next.now }
{
    match *next {
        Event::Rd { p } => read_at(events, p),
        Event::Wr { p, .. } => write_at(events, p),
        Event::Same { p, q, ne } => compared(events, p, q, ne),
        Event::New { site, count, words } => {
            let block = next_block(events, name, site, count, words);
            Some(SrcAnswer::Value(block.whole()))
        }
        Event::Free { p } => freed(events, p),
        Event::In => Some(SrcAnswer::Value(Value::Int(first_left(events)))),
        Event::Left => Some(SrcAnswer::Value(Value::Int(count_left(events) as i32))),
        Event::Call { .. } => Some(SrcAnswer::Frame(next_maker(events, name))),
        Event::Bad | Event::Given { .. } => None,
        Event::Out { .. } | Event::Ret | Event::Turn | Event::Fork { .. } | Event::Zero => {
            Some(SrcAnswer::Unit)
        }
    }
}

// Whether the word behind a pointer may be read or written.
fn is_usable(events: &[Stamp], obj: Obj, off: i64, lo: i64, hi: i64) -> bool
    requires { length events.now < 2147483648 }
    ensures { result ≡ is_usable (reverse events.now) obj off lo hi }
{
    lo <= off && off < hi && is_live(events, obj)
}

fn read_at(events: &[Stamp], p: Value) -> Option<SrcAnswer>
    requires { length events.now < 2147483648 }
    ensures { result ≡ read_at (reverse events.now) p }
{
    match p {
        Value::Ptr { obj, off, lo, hi } if is_usable(events, obj, off, lo, hi) => {
            Some(SrcAnswer::Value(last_value(events, obj, off)?))
        }
        _ => None,
    }
}

fn write_at(events: &[Stamp], p: Value) -> Option<SrcAnswer>
    requires { length events.now < 2147483648 }
    ensures { result ≡ write_at (reverse events.now) p }
{
    match p {
        Value::Ptr { obj, off, lo, hi } if is_usable(events, obj, off, lo, hi) => {
            Some(SrcAnswer::Unit)
        }
        _ => None,
    }
}

fn freed(events: &[Stamp], p: Value) -> Option<SrcAnswer>
    requires { length events.now < 2147483648 }
    ensures { result ≡ freed (reverse events.now) p }
{
    match p {
        Value::Null => Some(SrcAnswer::Unit),
        Value::Ptr { obj, off, .. } if off == 0 && is_live_block(events, obj) => {
            Some(SrcAnswer::Unit)
        }
        _ => None,
    }
}

// Where a comparison is valid, what it is answered.
fn compared_where(valid: bool, same: bool, ne: bool) -> Option<SrcAnswer>
    ensures { result ≡ where_so valid (differs_or_not ne same) }
{
    if !valid {
        return None;
    }
    let holds = same != ne;
    Some(SrcAnswer::Value(Value::Int(if holds { 1 } else { 0 })))
}

fn compared(events: &[Stamp], p: Value, q: Value, ne: bool) -> Option<SrcAnswer>
    requires { length events.now < 2147483648 }
    ensures { result ≡ compared (reverse events.now) p q ne }
{
    match (p, q) {
        (Value::Null, Value::Null) => compared_where(true, true, ne),
        (Value::Ptr { obj, .. }, Value::Null) => compared_where(is_live(events, obj), false, ne),
        (Value::Null, Value::Ptr { obj, .. }) => compared_where(is_live(events, obj), false, ne),
        (
            Value::Ptr { obj, off, hi, .. },
            Value::Ptr {
                obj: other,
                off: at,
                hi: to,
                ..
            },
        ) => {
            let live = is_live(events, obj) && is_live(events, other);
            let same = is_same(obj, other);
            let inside = off != hi && at != to;
            compared_where(live && (same || inside), same && off == at, ne)
        }
        _ => None,
    }
}
