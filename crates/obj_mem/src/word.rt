ghost use Rattle.std.specs.Prelude.{◌≡◌, reverse};
ghost use Rattle.obj_mem.specs.Written.{written, last_value};

use crate::event::{Event, Stamp};
use crate::value::{Obj, Value, is_same};

// What an event writes to this word of an object.
fn written(event: &Event, obj: Obj, off: i64) -> Option<Value>
    ensures { result ≡ written obj off event.now }
{
    match *event {
        Event::Wr {
            p: Value::Ptr {
                obj: other,
                off: at,
                ..
            },
            v,
        } if is_same(obj, other) && off == at => Some(v),
        _ => None,
    }
}

/// What was written last to this word of an object.
pub(crate) fn last_value(events: &[Stamp], obj: Obj, off: i64) -> Option<Value>
    ensures { result ≡ last_value obj off (reverse events.now) }
{
    let mut rest = events;
    while let Some((stamp, earlier)) = rest.split_last() {
        match written(&stamp.event, obj, off) {
            Some(v) => return Some(v),
            None => rest = earlier,
        }
    }
    None
}
