ghost use Rattle.std.specs.Prelude.{◌≡◌, ◌+◌};
ghost use Rattle.tac_ir.specs.GoodForm.{GoodForm};
ghost use Rattle.code_layout.specs.LayoutOf.{IsLayoutOf};
ghost use Rattle.obj_mem.specs.Asked.{new_event, out_event};
ghost use Rattle.obj_run.specs.Objects.{first_heap_site};
ghost use Rattle.obj_run.specs.Asked.{item_words, event_of, reply_of};

use crate::sites::first_heap_site;
use crate::values::{ObjStack, ObjValues};
use code_layout::Layout;
use obj_mem::{Event, SrcAnswer, Value};
use tac_ir::Code;
use tac_thread::{Reply, ReplyOf, Want};

/// What a thread wants, as an event; none where it waits or has ended.
pub(crate) fn event_of(c: &Code, l: &Layout, want: Want<Value>) -> Option<Event>
    requires form { GoodForm c.now }
    requires laid { IsLayoutOf c.now l.now }
    ensures { result ≡ event_of c.now want }
{
    match want {
        Want::Read { word, .. } => Some(Event::Rd { p: word }),
        Want::Write { word, value, .. } => Some(Event::Wr { p: word, v: value }),
        Want::Same { a, b, ne } => Some(Event::Same { p: a, q: b, ne }),
        Want::New { site, count } => Some(new_event(c, l, site, count)),
        Want::Free { word } => Some(Event::Free { p: word }),
        Want::In => Some(Event::In),
        Want::Left => Some(Event::Left),
        Want::Out { value } => Some(out_event(value)),
        Want::Call { fun } => Some(Event::Call { fun }),
        Want::Ret => Some(Event::Ret),
        Want::Turn => Some(Event::Turn),
        Want::Fork { branches } => Some(Event::Fork { n: branches }),
        Want::Zero => Some(Event::Zero),
        Want::Bad => Some(Event::Bad),
        Want::Push { .. } | Want::Pop { .. } | Want::Waits | Want::Ended(_) => None,
    }
}

// A block of so many items of a heap site.
fn new_event(c: &Code, l: &Layout, site: u16, count: Value) -> Event
    requires form { GoodForm c.now }
    requires laid { IsLayoutOf c.now l.now }
    ensures { result ≡ new_event (first_heap_site c.now + site) (item_words c.now site) count }
{
    match count {
        Value::Int(count) => Event::New {
            site: first_heap_site(c) + u32::from(site),
            count,
            words: item_words(c, l, site),
        },
        _ => Event::Bad,
    }
}

// The words of an item of a heap site.
fn item_words(c: &Code, l: &Layout, site: u16) -> u32
    requires { IsLayoutOf c.now l.now }
    ensures { result ≡ item_words c.now site }
{
    match c.sites.get(site as usize) {
        None => 0,
        Some(site) => l.shape_words(site.shape),
    }
}

fn out_event(value: Value) -> Event
    ensures { result ≡ out_event value }
{
    match value {
        Value::Int(v) => Event::Out { v },
        _ => Event::Bad,
    }
}

/// What a thread is told of an answer.
pub(crate) fn reply_of(answer: SrcAnswer) -> Reply<ObjValues>
    ensures { result ≡ reply_of answer }
{
    match answer {
        SrcAnswer::Unit => ReplyOf::Unit,
        SrcAnswer::Value(value) => ReplyOf::Value(value),
        SrcAnswer::Frame(maker) => ReplyOf::Stack(ObjStack { maker }),
    }
}
