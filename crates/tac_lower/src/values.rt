//! Expressions, one case for each form.

ghost use Rattle.std.specs.Prelude.{[]};
ghost use Rattle.tac_lower.specs.declared.draft.Ends.{Ends};
ghost use Rattle.tac_lower.specs.tools.Emits.{Emits, Yields, Counts};
ghost use Rattle.tac_lower.specs.tools.Well.{WellExpr, WellExprs};
ghost use Rattle.tac_lower.specs.Parts.{gathered};
ghost use Rattle.tac_lower.specs.Values.{expr, value, values_of, truth, sizes_in};

use crate::places::{left, temp};
use crate::plan::{Logic, logic_of, plan_of, words_behind};
use crate::structs::Structs;
use crate::writer::{Spot, Stop, Writer};
use c_typed::{Expr, Form};
use sqlite_items::{Boxed, Items};
use tac_ir::{Instr, Place};

impl Writer {
    /// An expression: a place, or the temporary with the value.
    #[cycle(values)]
    pub(crate) fn expr(&mut self, structs: &Structs, line: u32, e: &Expr) -> Result<Spot, Stop>
        requires { WellExpr structs.now e.now }
        ensures { (ends : Ends) → Yields ((expr (sizes_in structs.now) e.now).yield line) ends self.old self.new result }
    {
        match &e.form {
            Form::Global(var) => Ok(Spot::Direct(Place::Global {
                var: *var,
                path: Items::new(structs.alloc()),
            })),
            Form::Local(var) => Ok(Spot::Direct(Place::Local {
                var: *var,
                path: Items::new(structs.alloc()),
            })),
            Form::Deref(pointer) => left(self.value(structs, line, pointer)),
            Form::Index { pointer, index } => {
                let a = self.value(structs, line, pointer)?;
                let b = self.value(structs, line, index)?;
                let words = words_behind(structs, &pointer.get().typing);
                left(self.index(line, words, a, b))
            }
            Form::Field { whole, field } => {
                let spot = self.expr(structs, line, whole.get())?;
                self.part(structs.alloc(), line, &whole.get().typing, *field, spot)
            }
            Form::Arrow { pointer, field } => {
                let a = self.value(structs, line, pointer)?;
                left(self.field(structs.alloc(), line, &pointer.get().typing, *field, a))
            }
            Form::Number(k) => left(self.constant(line, *k)),
            Form::Null => {
                let to = self.next.temp;
                left(self.fresh(line, Instr::Null { to }))
            }
            Form::Read(place) => {
                let spot = self.expr(structs, line, place.get())?;
                left(self.read(line, spot))
            }
            Form::Decay(place) => {
                let spot = self.expr(structs, line, place.get())?;
                let a = self.pointer_to(line, spot)?;
                left(self.decay(structs.alloc(), line, &place.get().typing, a))
            }
            Form::Address(place) => {
                let spot = self.expr(structs, line, place.get())?;
                left(self.pointer_to(line, spot))
            }
            Form::Prefix { op, operand } => {
                let a = self.value(structs, line, operand)?;
                left(self.prefix(line, *op, &operand.get().typing, a))
            }
            Form::Binary {
                left: first,
                op,
                right: second,
            } => match logic_of(*op) {
                Logic::Both => {
                    let x = self.truth(structs, line, first)?;
                    let past = self.truth_points(structs, line, second)?;
                    self.test(line, x, past + 3)?;
                    let y = self.truth(structs, line, second)?;
                    left(self.settle(line, y))
                }
                Logic::Either => {
                    let x = self.truth(structs, line, first)?;
                    let past = self.truth_points(structs, line, second)?;
                    self.test_past(line, x, past + 1)?;
                    let y = self.truth(structs, line, second)?;
                    left(self.settle(line, y))
                }
                Logic::Neither => {
                    let a = self.value(structs, line, first)?;
                    let b = self.value(structs, line, second)?;
                    let plan = plan_of(structs, *op, &first.get().typing, &second.get().typing);
                    left(self.carry(line, plan, a, b))
                }
            },
            Form::Call {
                function,
                arguments,
            } => {
                let temps = self.arguments(structs, line, arguments.as_slice())?;
                left(self.call(line, *function, temps))
            }
            Form::GetInt => {
                let to = self.next.temp;
                left(self.fresh(line, Instr::In { to }))
            }
            Form::Left => {
                let to = self.next.temp;
                left(self.fresh(line, Instr::Left { to }))
            }
            Form::New { site, item, count } => match count {
                None => {
                    let a = self.constant(line, 1)?;
                    left(self.block(structs.alloc(), line, *site, item, a))
                }
                Some(count) => {
                    let a = self.value(structs, line, count)?;
                    left(self.block(structs.alloc(), line, *site, item, a))
                }
            },
        }
    }

    /// The temporary with a value.
    #[cycle(values)]
    pub(crate) fn value(
        &mut self,
        structs: &Structs,
        line: u32,
        e: &Boxed<Expr>,
    ) -> Result<u32, Stop>
        requires { WellExpr structs.now e.now }
        ensures { (ends : Ends) → Emits (value line (expr (sizes_in structs.now) e.now)) ends self.old self.new result }
    {
        self.argument(structs, line, e.get())
    }

    /// The same for an argument of a call.
    #[cycle(values)]
    pub(crate) fn argument(&mut self, structs: &Structs, line: u32, e: &Expr) -> Result<u32, Stop>
        requires { WellExpr structs.now e.now }
        ensures { (ends : Ends) → Emits (value line (expr (sizes_in structs.now) e.now)) ends self.old self.new result }
    {
        temp(self.expr(structs, line, e))
    }

    #[cycle(values)]
    fn truth(&mut self, structs: &Structs, line: u32, e: &Boxed<Expr>) -> Result<u32, Stop>
        requires { WellExpr structs.now e.now }
        ensures { (ends : Ends) → Emits (truth line (expr (sizes_in structs.now) e.now)) ends self.old self.new result }
    {
        let a = self.value(structs, line, e)?;
        self.truth_of(line, &e.get().typing, a)
    }

    /// How many instructions a truth value will have: a dry run counts them.
    #[cycle(values)]
    fn truth_points(&self, structs: &Structs, line: u32, e: &Boxed<Expr>) -> Result<u32, Stop>
        requires { WellExpr structs.now e.now }
        ensures { Counts (truth line (expr (sizes_in structs.now) e.now)) self.now result }
    {
        if self.dry {
            return Ok(0);
        }
        let mut run = self.dry_run(structs.alloc());
        run.truth(structs, line, e)?;
        Ok(run.next.at - self.next.at)
    }

    /// The temporaries with the arguments of a call.
    #[cycle(values)]
    fn arguments(
        &mut self,
        structs: &Structs,
        line: u32,
        arguments: &[Expr],
    ) -> Result<Items<u32>, Stop>
        requires { WellExprs structs.now arguments.now }
        ensures { (ends : Ends) → Emits (gathered [] (values_of line (sizes_in structs.now) arguments.now)) ends self.old self.new result }
    {
        let mut temps = Items::new(structs.alloc());
        for argument in arguments {
            let temp = self.argument(structs, line, argument)?;
            temps.push(temp)?;
        }
        Ok(temps)
    }
}
