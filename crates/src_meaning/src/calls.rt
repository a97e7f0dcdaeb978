//! Calls of functions, and what thread 1 does.

ghost use Rattle.std.specs.Prelude.{◌≡◌, ◌+◌};
ghost use Rattle.src_law.specs.Acts.{Act, a_value, nothing};
ghost use Rattle.src_law.specs.Program as spec;
ghost use Rattle.src_meaning.specs.tools.Knots.{IsCalling};
ghost use Rattle.src_meaning.specs.tools.Levels.{ReadsIn, seen};

use crate::exprs::Parts;
use crate::heard::{Hearing, Pause};
use crate::level::{Level, plus};
use c_typed::ObjectType;
use obj_mem::{Event, Value};
use src_law::End;

// What a function whose body ends without `return` answers.
fn default_of(object: &Option<ObjectType>) -> Value
    ensures { result ≡ spec.default_of object.now }
{
    match object {
        Some(found) if found.stars > 0 => Value::Null,
        _ => Value::Int(0),
    }
}

fn value_at(object: &Option<ObjectType>, end: End) -> Value
    ensures { result ≡ spec.value_at object.now end }
{
    match end {
        End::Returned(value) => value,
        _ => default_of(object),
    }
}

impl<'a> Level<'a> {
    // The arguments are written to the parameters, from this one on.
    fn passed(&self, k: u32, arguments: &[Value], heard: &mut Hearing<'_>) -> Result<(), Pause>
        ensures { ReadsIn self.now nothing (spec.passed (seen self.now) k arguments.now) heard.old result heard.new }
    {
        match arguments {
            [] => Ok(()),
            [first, rest @ ..] => {
                let p = self.local_place(k)?;
                heard.tells(Event::Wr { p, v: *first })?;
                self.passed(plus(k, 1)?, rest, heard)
            }
        }
    }
}

impl<'a, F: Fn(Level<'_>, u32, &[Value], &mut Hearing<'_>) -> Result<Value, Pause> + Copy> Parts<
    'a,
    F,
> {
    /// The body of the function, in its frame.
    fn body(&self, arguments: &[Value], heard: &mut Hearing<'_>) -> Result<Value, Pause>
        requires { IsCalling self.now.level.fuel (F.pre self.now.call) (F.post self.now.call) }
        ensures { ReadsIn self.now.level a_value (spec.body_in (seen self.now.level) self.now.level.function.now arguments.now) heard.old result heard.new }
    {
        self.level.passed(0, arguments, heard)?;
        let end = self.stmts(self.level.function.body.as_slice(), heard)?;
        Ok(value_at(&self.level.function.result, end))
    }

    /// The same, and the return from it.
    fn call_in(&self, arguments: &[Value], heard: &mut Hearing<'_>) -> Result<Value, Pause>
        requires { IsCalling self.now.level.fuel (F.pre self.now.call) (F.post self.now.call) }
        ensures { ReadsIn self.now.level a_value (spec.with_return (spec.body_in (seen self.now.level) self.now.level.function.now arguments.now)) heard.old result heard.new }
    {
        let value = self.body(arguments, heard)?;
        heard.tells(Event::Ret)?;
        Ok(value)
    }
}

/// A call of function `number`, which has a frame and a level of its own.
pub(crate) fn called(
    level: Level<'_>,
    number: u32,
    arguments: &[Value],
    heard: &mut Hearing<'_>,
) -> Result<Value, Pause>
    ensures { ReadsIn level.entry a_value (Act.calls number arguments.now) heard.old result heard.new }
{
    let maker = heard.frame(Event::Call { fun: number })?;
    if level.fuel == 0 {
        return Err(Pause::Off);
    }
    let Some(function) = level.program.functions.get(number as usize) else {
        return heard.last(Event::Bad);
    };
    let inner = Level {
        program: level.program,
        number,
        function,
        maker,
        fuel: level.fuel - 1,
    };
    let parts = Parts {
        alloc: level.program.alloc,
        level: inner,
        call: called,
    };
    parts.call_in(arguments, heard)
}
