ghost use Rattle.std.specs.Prelude.{◌≡◌, ◌++◌, ◌<◌, ◌^◌, IfOk, length, reverse};
ghost use Rattle.tac_ir.specs.GoodForm.{GoodForm};
ghost use Rattle.obj_mem.specs.Opening.{opened, words_opened, global_of};
ghost use Rattle.obj_run.specs.Starts.{values_in, opening};

use dfi_base::{Memory, Name};
use obj_mem::{Event, Maker, Obj, SrcAnswer, Stamp, Value};
use std::alloc::Global;
use tac_ir::{Code, Shape};

/// What every run of a code begins with: the words of each global are written, and then the numbers of the input are given.
pub(crate) fn opening(alloc: Global, c: &Code, input: &[i32]) -> Result<Vec<Stamp>, Memory>
    requires { GoodForm c.now }
    ensures { IfOk result (λ stamps. stamps.items ≡ reverse (opening c.now input.now)) }
{
    let mut stamps = Vec::new(alloc);
    for (site, global) in c.globals.as_slice().iter().enumerate() {
        let mut words = Vec::new(alloc);
        push_values(c, global.shape, Value::Int(global.start), &mut words)?;
        open_words(site as u32, &words, &mut stamps)?;
    }
    for v in input {
        stamps.push(opened(Event::Given { v: *v }))?;
    }
    Ok(stamps)
}

fn opened(event: Event) -> Stamp
    ensures { result ≡ opened event }
{
    Stamp {
        name: Name(0),
        event,
        answer: SrcAnswer::Unit,
    }
}

// Writes these values to the words of a global.
fn open_words(site: u32, words: &[Value], stamps: &mut Vec<Stamp>) -> Result<(), Memory>
    requires { length words.now < 2 ^ 31 }
    ensures { IfOk result (λ _. stamps.new.items ≡ stamps.old.items ++ words_opened (global_of site (length words.now)) 0 words.now) }
{
    let maker = Maker {
        thread: Name(0),
        count: 0,
    };
    let len = words.len() as u32;
    for (at, v) in words.iter().enumerate() {
        let p = Value::Ptr {
            obj: Obj { site, maker, len },
            off: at as i64,
            lo: 0,
            hi: i64::from(len),
        };
        stamps.push(opened(Event::Wr { p, v: *v }))?;
    }
    Ok(())
}

// The words of a shape, where each int is this value.
fn push_values(c: &Code, shape: u32, int: Value, words: &mut Vec<Value>) -> Result<(), Memory>
    requires { GoodForm c.now }
    ensures { IfOk result (λ _. words.new.items ≡ words.old.items ++ values_in int (reverse c.now.shapes) shape) }
{
    match c.shapes.get(shape as usize) {
        None => {}
        Some(Shape::Int) => words.push(int)?,
        Some(Shape::Ptr) => words.push(Value::Null)?,
        Some(Shape::Array { len, item }) => {
            for _ in 0..*len {
                push_values(c, *item, int, words)?;
            }
        }
        Some(Shape::Struct { parts }) => {
            for part in parts.as_slice() {
                push_values(c, *part, int, words)?;
            }
        }
    }
    Ok(())
}
