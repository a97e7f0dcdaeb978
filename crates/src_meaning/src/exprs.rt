//! Expressions, one function for each form.

ghost use Rattle.std.specs.Prelude.{map, Some};
ghost use Rattle.src_law.specs.Acts.{Act, a_truth, a_value, some_values};
ghost use Rattle.src_law.specs.Exprs as spec;
ghost use Rattle.src_meaning.specs.tools.Knots.{IsCalling};
ghost use Rattle.src_meaning.specs.tools.Levels.{ReadsIn, seen};

use crate::heard::{Hearing, Pause};
use crate::level::Level;
use crate::operators::number_of;
use c_ast::BinaryOp;
use c_typed::{Expr, Form, ObjectType, PrefixOp};
use obj_mem::{Event, Value};
use sqlite_items::{Boxed, Items};
use std::alloc::Global;

/// The parts of a function in a frame, over what does its calls.
#[derive(Clone, Copy)]
pub struct Parts<'a, F> {
    pub alloc: Global,
    pub level: Level<'a>,
    pub call: F,
}

impl<'a, F: Fn(Level<'_>, u32, &[Value], &mut Hearing<'_>) -> Result<Value, Pause>> Parts<'a, F> {
    /// The value of an expression, or the pointer to a place.
    #[cycle(exprs)]
    pub(crate) fn expr(&self, e: &Expr, heard: &mut Hearing<'_>) -> Result<Value, Pause>
        requires { IsCalling self.now.level.fuel (F.pre self.now.call) (F.post self.now.call) }
        ensures { ReadsIn self.now.level a_value (spec.expr (seen self.now.level) e.now).act heard.old result heard.new }
    {
        match &e.form {
            Form::Global(v) => self.level.global_place(*v),
            Form::Local(v) => self.level.local_place(*v),
            Form::Number(k) => Ok(Value::Int(*k)),
            Form::Null => Ok(Value::Null),
            Form::GetInt => heard.value(Event::In),
            Form::Left => heard.value(Event::Left),
            Form::Deref(pointer) => self.operand(pointer, heard),
            Form::Address(place) => self.operand(place, heard),
            Form::Index { pointer, index } => self.index(pointer, index, heard),
            Form::Field { whole, field } => self.field(whole, *field, heard),
            Form::Arrow { pointer, field } => self.field(pointer, *field, heard),
            Form::Read(place) => self.read(place, heard),
            Form::Decay(place) => self.decay(place, heard),
            Form::Prefix { op, operand } => self.prefix(*op, operand, heard),
            Form::Binary { left, op, right } => self.binary(*op, left, right, heard),
            Form::Call {
                function,
                arguments,
            } => self.calls(*function, arguments.as_slice(), heard),
            Form::New { site, item, count } => match count {
                None => self.level.makes(*site, item, Value::Int(1), heard),
                Some(count) => self.makes(*site, item, count, heard),
            },
        }
    }

    #[cycle(exprs)]
    fn operand(&self, e: &Boxed<Expr>, heard: &mut Hearing<'_>) -> Result<Value, Pause>
        requires { IsCalling self.now.level.fuel (F.pre self.now.call) (F.post self.now.call) }
        ensures { ReadsIn self.now.level a_value (spec.expr (seen self.now.level) e.now).act heard.old result heard.new }
    {
        self.expr(e.get(), heard)
    }

    #[cycle(exprs)]
    fn index(
        &self,
        pointer: &Boxed<Expr>,
        index: &Boxed<Expr>,
        heard: &mut Hearing<'_>,
    ) -> Result<Value, Pause>
        requires { IsCalling self.now.level.fuel (F.pre self.now.call) (F.post self.now.call) }
        ensures { ReadsIn self.now.level a_value (spec.indexed (seen self.now.level) (spec.expr (seen self.now.level) pointer.now) (spec.expr (seen self.now.level) index.now)) heard.old result heard.new }
    {
        let v = self.operand(pointer, heard)?;
        let k = self.operand(index, heard)?;
        self.level.indexed(self.level.typing(pointer), v, k, heard)
    }

    #[cycle(exprs)]
    fn field(&self, whole: &Boxed<Expr>, k: u32, heard: &mut Hearing<'_>) -> Result<Value, Pause>
        requires { IsCalling self.now.level.fuel (F.pre self.now.call) (F.post self.now.call) }
        ensures { ReadsIn self.now.level a_value (spec.with_field (seen self.now.level) (spec.expr (seen self.now.level) whole.now) k) heard.old result heard.new }
    {
        let v = self.operand(whole, heard)?;
        self.level.field_of(self.level.typing(whole), k, v, heard)
    }

    #[cycle(exprs)]
    fn read(&self, place: &Boxed<Expr>, heard: &mut Hearing<'_>) -> Result<Value, Pause>
        requires { IsCalling self.now.level.fuel (F.pre self.now.call) (F.post self.now.call) }
        ensures { ReadsIn self.now.level a_value (spec.read (spec.expr (seen self.now.level) place.now)) heard.old result heard.new }
    {
        let p = self.operand(place, heard)?;
        heard.value(Event::Rd { p })
    }

    #[cycle(exprs)]
    fn decay(&self, place: &Boxed<Expr>, heard: &mut Hearing<'_>) -> Result<Value, Pause>
        requires { IsCalling self.now.level.fuel (F.pre self.now.call) (F.post self.now.call) }
        ensures { ReadsIn self.now.level a_value (spec.decayed (seen self.now.level) (spec.expr (seen self.now.level) place.now)) heard.old result heard.new }
    {
        let p = self.operand(place, heard)?;
        self.level.first_item(self.level.typing(place), p, heard)
    }

    #[cycle(exprs)]
    fn prefix(
        &self,
        op: PrefixOp,
        operand: &Boxed<Expr>,
        heard: &mut Hearing<'_>,
    ) -> Result<Value, Pause>
        requires { IsCalling self.now.level.fuel (F.pre self.now.call) (F.post self.now.call) }
        ensures { ReadsIn self.now.level a_value (spec.with_prefix op (spec.expr (seen self.now.level) operand.now)) heard.old result heard.new }
    {
        let v = self.operand(operand, heard)?;
        self.level
            .prefixed(op, self.level.typing(operand), v, heard)
    }

    /// The truth value of an expression.
    #[cycle(exprs)]
    fn truth(&self, e: &Boxed<Expr>, heard: &mut Hearing<'_>) -> Result<bool, Pause>
        requires { IsCalling self.now.level.fuel (F.pre self.now.call) (F.post self.now.call) }
        ensures { ReadsIn self.now.level a_truth (spec.truth (spec.expr (seen self.now.level) e.now)) heard.old result heard.new }
    {
        let v = self.operand(e, heard)?;
        self.level.is_true(self.level.typing(e), v, heard)
    }

    #[cycle(exprs)]
    fn both(
        &self,
        left: &Boxed<Expr>,
        right: &Boxed<Expr>,
        heard: &mut Hearing<'_>,
    ) -> Result<bool, Pause>
        requires { IsCalling self.now.level.fuel (F.pre self.now.call) (F.post self.now.call) }
        ensures { ReadsIn self.now.level a_truth (spec.both (spec.expr (seen self.now.level) left.now) (spec.expr (seen self.now.level) right.now)) heard.old result heard.new }
    {
        if self.truth(left, heard)? {
            self.truth(right, heard)
        } else {
            Ok(false)
        }
    }

    #[cycle(exprs)]
    fn either(
        &self,
        left: &Boxed<Expr>,
        right: &Boxed<Expr>,
        heard: &mut Hearing<'_>,
    ) -> Result<bool, Pause>
        requires { IsCalling self.now.level.fuel (F.pre self.now.call) (F.post self.now.call) }
        ensures { ReadsIn self.now.level a_truth (spec.either (spec.expr (seen self.now.level) left.now) (spec.expr (seen self.now.level) right.now)) heard.old result heard.new }
    {
        if self.truth(left, heard)? {
            Ok(true)
        } else {
            self.truth(right, heard)
        }
    }

    #[cycle(exprs)]
    fn computed(
        &self,
        op: BinaryOp,
        left: &Boxed<Expr>,
        right: &Boxed<Expr>,
        heard: &mut Hearing<'_>,
    ) -> Result<Value, Pause>
        requires { IsCalling self.now.level.fuel (F.pre self.now.call) (F.post self.now.call) }
        ensures { ReadsIn self.now.level a_value (spec.computed_by (seen self.now.level) op (spec.expr (seen self.now.level) left.now) (spec.expr (seen self.now.level) right.now)) heard.old result heard.new }
    {
        let v = self.operand(left, heard)?;
        let w = self.operand(right, heard)?;
        let first = self.level.typing(left);
        let second = self.level.typing(right);
        self.level.operated(op, first, second, v, w, heard)
    }

    #[cycle(exprs)]
    fn binary(
        &self,
        op: BinaryOp,
        left: &Boxed<Expr>,
        right: &Boxed<Expr>,
        heard: &mut Hearing<'_>,
    ) -> Result<Value, Pause>
        requires { IsCalling self.now.level.fuel (F.pre self.now.call) (F.post self.now.call) }
        ensures { ReadsIn self.now.level a_value (spec.binary (seen self.now.level) op (spec.expr (seen self.now.level) left.now) (spec.expr (seen self.now.level) right.now)) heard.old result heard.new }
    {
        match op {
            BinaryOp::And => Ok(number_of(self.both(left, right, heard)?)),
            BinaryOp::Or => Ok(number_of(self.either(left, right, heard)?)),
            _ => self.computed(op, left, right, heard),
        }
    }

    #[cycle(exprs)]
    fn values(&self, arguments: &[Expr], heard: &mut Hearing<'_>) -> Result<Items<Value>, Pause>
        requires { IsCalling self.now.level.fuel (F.pre self.now.call) (F.post self.now.call) }
        ensures { ReadsIn self.now.level some_values (spec.values_of (map (spec.expr (seen self.now.level)) arguments.now)) heard.old result heard.new }
    {
        let mut values = Items::new(self.alloc);
        for argument in arguments {
            let value = self.expr(argument, heard)?;
            values.push(value)?;
        }
        Ok(values)
    }

    #[cycle(exprs)]
    fn calls(
        &self,
        function: u32,
        arguments: &[Expr],
        heard: &mut Hearing<'_>,
    ) -> Result<Value, Pause>
        requires { IsCalling self.now.level.fuel (F.pre self.now.call) (F.post self.now.call) }
        ensures { ReadsIn self.now.level a_value (spec.calls function (map (spec.expr (seen self.now.level)) arguments.now)) heard.old result heard.new }
    {
        let values = self.values(arguments, heard)?;
        (self.call)(self.level, function, values.as_slice(), heard)
    }

    #[cycle(exprs)]
    fn makes(
        &self,
        site: u32,
        item: &ObjectType,
        count: &Boxed<Expr>,
        heard: &mut Hearing<'_>,
    ) -> Result<Value, Pause>
        requires { IsCalling self.now.level.fuel (F.pre self.now.call) (F.post self.now.call) }
        ensures { ReadsIn self.now.level a_value (spec.makes (seen self.now.level) site item.now (Some (spec.expr (seen self.now.level) count.now))) heard.old result heard.new }
    {
        let count = self.operand(count, heard)?;
        self.level.makes(site, item, count, heard)
    }
}
