//! Statements without statements in them, one function for each form.

ghost use Rattle.std.specs.Prelude.{◌≡◌};
ghost use Rattle.src_law.specs.Acts.{Act, a_truth, an_end, ◌▷◌};
ghost use Rattle.src_law.specs.Exprs as exprs;
ghost use Rattle.src_law.specs.Operators.{updated};
ghost use Rattle.src_law.specs.Stmts as spec;
ghost use Rattle.obj_mem.specs.Asked.{out_event};
ghost use Rattle.src_meaning.specs.tools.Knots.{IsCalling};
ghost use Rattle.src_meaning.specs.tools.Levels.{ReadsIn, seen};

use crate::exprs::Parts;
use crate::heard::{Hearing, Pause};
use crate::level::Level;
use c_ast::AssignOp;
use c_typed::{Condition, Expr, ExprType};
use obj_mem::{Event, Value};
use src_law::End;
use std::alloc::Global;

// The type of what is assigned: a pointer or an int.
fn assigned_type(alloc: Global, typing: &ExprType) -> ExprType
    ensures { result ≡ spec.assigned_type typing.now }
{
    match typing {
        ExprType::Place(object) => match object.scalar(alloc) {
            Some(found) => found,
            None => ExprType::Int,
        },
        ExprType::Unknown => ExprType::Unknown,
        _ => ExprType::Int,
    }
}

impl<'a> Level<'a> {
    fn write(&self, p: Value, v: Value, heard: &mut Hearing<'_>) -> Result<End, Pause>
        ensures { ReadsIn self.now an_end (spec.write p v) heard.old result heard.new }
    {
        heard.tells(Event::Wr { p, v })?;
        Ok(End::Done)
    }

    fn put(&self, v: Value, heard: &mut Hearing<'_>) -> Result<End, Pause>
        ensures { ReadsIn self.now an_end (spec.told (out_event v)) heard.old result heard.new }
    {
        let Value::Int(v) = v else {
            return heard.last(Event::Bad);
        };
        heard.tells(Event::Out { v })?;
        Ok(End::Done)
    }
}

impl<'a, F: Fn(Level<'_>, u32, &[Value], &mut Hearing<'_>) -> Result<Value, Pause>> Parts<'a, F> {
    // What is written back to a place whose old value was read.
    fn write_back(
        &self,
        op: AssignOp,
        target: &Expr,
        p: Value,
        old: Value,
        v: Value,
        heard: &mut Hearing<'_>,
    ) -> Result<End, Pause>
        ensures { ReadsIn self.now.level an_end (updated (exprs.sizes (seen self.now.level)) op (spec.assigned_type (exprs.expr (seen self.now.level) target.now).typing) old v ▷ spec.write p) heard.old result heard.new }
    {
        let typing = assigned_type(self.alloc, self.level.type_of(target));
        let v = self.level.updated(op, &typing, old, v, heard)?;
        self.level.write(p, v, heard)
    }

    fn plain(&self, target: &Expr, value: &Expr, heard: &mut Hearing<'_>) -> Result<End, Pause>
        requires { IsCalling self.now.level.fuel (F.pre self.now.call) (F.post self.now.call) }
        ensures { ReadsIn self.now.level an_end (spec.assigned (seen self.now.level) AssignOp.Plain (exprs.expr (seen self.now.level) target.now) (exprs.expr (seen self.now.level) value.now).act) heard.old result heard.new }
    {
        let p = self.expr(target, heard)?;
        let v = self.expr(value, heard)?;
        self.level.write(p, v, heard)
    }

    fn compound(
        &self,
        op: AssignOp,
        target: &Expr,
        value: &Expr,
        heard: &mut Hearing<'_>,
    ) -> Result<End, Pause>
        requires { IsCalling self.now.level.fuel (F.pre self.now.call) (F.post self.now.call) }
        ensures { ReadsIn self.now.level an_end (spec.compound (seen self.now.level) op (exprs.expr (seen self.now.level) target.now) (exprs.expr (seen self.now.level) value.now).act) heard.old result heard.new }
    {
        let p = self.expr(target, heard)?;
        let old = heard.value(Event::Rd { p })?;
        let v = self.expr(value, heard)?;
        self.write_back(op, target, p, old, v, heard)
    }

    pub(crate) fn assign(
        &self,
        op: AssignOp,
        target: &Expr,
        value: &Expr,
        heard: &mut Hearing<'_>,
    ) -> Result<End, Pause>
        requires { IsCalling self.now.level.fuel (F.pre self.now.call) (F.post self.now.call) }
        ensures { ReadsIn self.now.level an_end (spec.assigned (seen self.now.level) op (exprs.expr (seen self.now.level) target.now) (exprs.expr (seen self.now.level) value.now).act) heard.old result heard.new }
    {
        match op {
            AssignOp::Plain => self.plain(target, value, heard),
            _ => self.compound(op, target, value, heard),
        }
    }

    /// `++` and `--`.
    pub(crate) fn step(
        &self,
        op: AssignOp,
        target: &Expr,
        heard: &mut Hearing<'_>,
    ) -> Result<End, Pause>
        requires { IsCalling self.now.level.fuel (F.pre self.now.call) (F.post self.now.call) }
        ensures { ReadsIn self.now.level an_end (spec.compound (seen self.now.level) op (exprs.expr (seen self.now.level) target.now) spec.one) heard.old result heard.new }
    {
        let p = self.expr(target, heard)?;
        let old = heard.value(Event::Rd { p })?;
        self.write_back(op, target, p, old, Value::Int(1), heard)
    }

    pub(crate) fn ignored(&self, e: &Expr, heard: &mut Hearing<'_>) -> Result<End, Pause>
        requires { IsCalling self.now.level.fuel (F.pre self.now.call) (F.post self.now.call) }
        ensures { ReadsIn self.now.level an_end (spec.ignored (exprs.expr (seen self.now.level) e.now).act) heard.old result heard.new }
    {
        self.expr(e, heard)?;
        Ok(End::Done)
    }

    pub(crate) fn put_int(&self, e: &Expr, heard: &mut Hearing<'_>) -> Result<End, Pause>
        requires { IsCalling self.now.level.fuel (F.pre self.now.call) (F.post self.now.call) }
        ensures { ReadsIn self.now.level an_end (spec.put (exprs.expr (seen self.now.level) e.now).act) heard.old result heard.new }
    {
        let v = self.expr(e, heard)?;
        self.level.put(v, heard)
    }

    pub(crate) fn free(&self, e: &Expr, heard: &mut Hearing<'_>) -> Result<End, Pause>
        requires { IsCalling self.now.level.fuel (F.pre self.now.call) (F.post self.now.call) }
        ensures { ReadsIn self.now.level an_end (spec.frees (exprs.expr (seen self.now.level) e.now).act) heard.old result heard.new }
    {
        let p = self.expr(e, heard)?;
        heard.tells(Event::Free { p })?;
        Ok(End::Done)
    }

    /// A `return`, without a value 0.
    pub(crate) fn give(&self, value: &Option<Expr>, heard: &mut Hearing<'_>) -> Result<End, Pause>
        requires { IsCalling self.now.level.fuel (F.pre self.now.call) (F.post self.now.call) }
        ensures { ReadsIn self.now.level an_end (spec.result (seen self.now.level) value.now) heard.old result heard.new }
    {
        match value {
            None => Ok(End::Returned(Value::Int(0))),
            Some(e) => Ok(End::Returned(self.expr(e, heard)?)),
        }
    }

    pub(crate) fn condition(
        &self,
        condition: &Condition,
        heard: &mut Hearing<'_>,
    ) -> Result<bool, Pause>
        requires { IsCalling self.now.level.fuel (F.pre self.now.call) (F.post self.now.call) }
        ensures { ReadsIn self.now.level a_truth (spec.condition (seen self.now.level) condition.now) heard.old result heard.new }
    {
        let v = self.expr(&condition.value, heard)?;
        self.level
            .is_true(self.level.type_of(&condition.value), v, heard)
    }

    /// The condition of a `for`; without one it goes on.
    pub(crate) fn guard(
        &self,
        condition: &Option<Condition>,
        heard: &mut Hearing<'_>,
    ) -> Result<bool, Pause>
        requires { IsCalling self.now.level.fuel (F.pre self.now.call) (F.post self.now.call) }
        ensures { ReadsIn self.now.level a_truth (spec.guard (seen self.now.level) condition.now) heard.old result heard.new }
    {
        match condition {
            None => Ok(true),
            Some(condition) => self.condition(condition, heard),
        }
    }
}
