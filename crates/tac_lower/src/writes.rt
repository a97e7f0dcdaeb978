//! Assignments, returns and conditions.

ghost use Rattle.std.specs.Prelude.{pos, ◌≡◌, ◌≤◌, IfOk};
ghost use Rattle.tac_lower.specs.declared.draft.Ends.{Ends};
ghost use Rattle.tac_lower.specs.tools.Emits.{Emits, at_spot, write_at, changed};
ghost use Rattle.tac_lower.specs.Instrs as spec;
ghost use Rattle.tac_lower.specs.Parts.{chained};
ghost use Rattle.tac_lower.specs.Stmts as stmts;
ghost use Rattle.tac_lower.specs.Values.{expr, value, truth, carried, sizes_in};
ghost use Rattle.tac_lower.specs.tools.Plans.{operation_of};
ghost use Rattle.tac_lower.specs.tools.Well.{IsSmallTyping, WellExpr, WellExprThere};
ghost use Rattle.c_typed.specs.Elaboration as elaboration;

use crate::draft::Draft;
use crate::plan::{Plan, plan_of};
use crate::structs::Structs;
use crate::writer::{A_DEF, A_READ, Spot, Stop, Writer};
use c_ast::{AssignOp, BinaryOp};
use c_typed::{BaseType, Condition, Expr, ExprType, ObjectType};
use sqlite_items::Items;
use std::alloc::{AllocError, Global};
use tac_ir::{Instr, Place};

/// The type of what stands at a place: `int`, or a pointer.
fn scalar_at(alloc: Global, typing: &ExprType) -> ExprType
    ensures { result ≡ stmts.scalar_at typing.now }
{
    match typing {
        ExprType::Place(object) => scalar(alloc, object),
        ExprType::Pointer(object) => scalar(alloc, object),
        _ => ExprType::Int,
    }
}

fn scalar(alloc: Global, object: &ObjectType) -> ExprType
    ensures { result ≡ elaboration.scalar_of object.now }
{
    if object.stars > 0 && object.lengths.is_empty() {
        ExprType::Pointer(ObjectType {
            base: object.base,
            stars: object.stars - 1,
            lengths: Items::new(alloc),
        })
    } else {
        ExprType::Int
    }
}

fn is_plain(op: AssignOp) -> bool
    ensures { result ≡ stmts.is_plain op }
{
    matches!(op, AssignOp::Plain)
}

/// The operator of an assignment. (A plain one has none.)
fn operator(op: AssignOp) -> BinaryOp
    ensures { result ≡ elaboration.compound_operator op }
{
    match op {
        AssignOp::Plain | AssignOp::Add => BinaryOp::Add,
        AssignOp::Sub => BinaryOp::Sub,
        AssignOp::Mul => BinaryOp::Mul,
        AssignOp::Div => BinaryOp::Div,
        AssignOp::Rem => BinaryOp::Rem,
        AssignOp::BitAnd => BinaryOp::BitAnd,
        AssignOp::BitOr => BinaryOp::BitOr,
        AssignOp::BitXor => BinaryOp::BitXor,
        AssignOp::ShiftLeft => BinaryOp::ShiftLeft,
        AssignOp::ShiftRight => BinaryOp::ShiftRight,
    }
}

/// How a compound assignment changes a scalar of this type.
fn update(structs: &Structs, op: AssignOp, scalar: &ExprType) -> Plan
    requires { IsSmallTyping (sizes_in structs.now) scalar.now }
    ensures { operation_of result ≡ elaboration.update (sizes_in structs.now) op scalar.now }
{
    plan_of(structs, operator(op), scalar, &ExprType::Int)
}

fn copy_place(alloc: Global, place: &Place) -> Result<Place, AllocError>
    ensures { IfOk result (λ p. p ≡ place.now) }
{
    match place {
        Place::Global { var, path } => Ok(Place::Global {
            var: *var,
            path: Items::from_slice(alloc, path.as_slice())?,
        }),
        Place::Local { var, path } => Ok(Place::Local {
            var: *var,
            path: Items::from_slice(alloc, path.as_slice())?,
        }),
    }
}

impl Writer {
    pub(crate) fn set(&mut self, line: u32, place: Place, a: u32) -> Result<u32, Stop>
        ensures { (ends : Ends) → Emits (spec.set line place a) ends self.old self.new result }
    {
        let instr = Instr::Set {
            place,
            a,
            def: self.next.def,
        };
        let draft = Draft {
            line,
            instr,
            object: None,
        };
        self.put(draft, A_DEF)
    }

    fn store(&mut self, line: u32, a: u32, b: u32) -> Result<u32, Stop>
        ensures { (ends : Ends) → Emits (spec.store line a b) ends self.old self.new result }
    {
        let instr = Instr::Store {
            a,
            b,
            def: self.next.def,
        };
        let draft = Draft {
            line,
            instr,
            object: None,
        };
        self.put(draft, A_DEF)
    }

    /// Writes `b` to a place.
    fn write(&mut self, line: u32, spot: Spot, b: u32) -> Result<u32, Stop>
        ensures { (ends : Ends) → Emits (write_at line spot b) ends self.old self.new result }
    {
        match spot {
            Spot::Direct(place) => self.set(line, place, b),
            Spot::Left(a) => self.store(line, a, b),
        }
    }

    /// The value at a place that is to be written too.
    fn old_value(&mut self, alloc: Global, line: u32, spot: &Spot) -> Result<u32, Stop>
        ensures { (ends : Ends) → Emits (at_spot (λ p. spec.get line p) (λ a. spec.load line a) spot.now) ends self.old self.new result }
    {
        match spot {
            Spot::Direct(place) => {
                let place = copy_place(alloc, place)?;
                self.get(line, place)
            }
            Spot::Left(a) => self.load(line, *a),
        }
    }

    /// A return of `a`. That of `main` has no link to read.
    pub(crate) fn give_back(&mut self, in_main: bool, line: u32, a: u32) -> Result<u32, Stop>
        ensures { (ends : Ends) → Emits (stmts.returned in_main line a) ends self.old self.new result }
    {
        if in_main {
            self.quiet(line, Instr::Ret { a, read: None })
        } else {
            let read = Some(self.next.read);
            let draft = Draft {
                line,
                instr: Instr::Ret { a, read },
                object: None,
            };
            self.put(draft, A_READ)
        }
    }

    pub(crate) fn jump(&mut self, line: u32, target: u32) -> Result<u32, Stop>
        ensures { (ends : Ends) → Emits (spec.jump line target) ends self.old self.new result }
    {
        self.quiet(line, Instr::Jump { target })
    }

    pub(crate) fn turn(&mut self, line: u32) -> Result<u32, Stop>
        ensures { (ends : Ends) → Emits (stmts.turn line) ends self.old self.new result }
    {
        self.quiet(line, Instr::Turn)
    }

    /// `=`, or the value of a declared variable.
    fn assign(
        &mut self,
        structs: &Structs,
        line: u32,
        target: &Expr,
        source: &Expr,
    ) -> Result<u32, Stop>
        requires target { WellExpr structs.now target.now }
        requires source { WellExpr structs.now source.now }
        ensures { (ends : Ends) → Emits (stmts.assigned line ((expr (sizes_in structs.now) target.now).yield line) (value line (expr (sizes_in structs.now) source.now))) ends self.old self.new result }
    {
        let spot = self.expr(structs, line, target)?;
        let value = self.argument(structs, line, source)?;
        self.write(line, spot, value)
    }

    /// Writes a place anew, from its old value and another.
    fn change(
        &mut self,
        structs: &Structs,
        line: u32,
        op: AssignOp,
        typing: &ExprType,
        spot: Spot,
        old: u32,
        b: u32,
    ) -> Result<u32, Stop>
        ensures { (ends : Ends) → Emits (changed line (elaboration.update (sizes_in structs.now) op (stmts.scalar_at typing.now)) spot old b) ends self.old self.new result }
    {
        let scalar = scalar_at(structs.alloc(), typing);
        let plan = update(structs, op, &scalar);
        let c = self.carry(line, plan, old, b)?;
        self.write(line, spot, c)
    }

    /// A compound assignment.
    fn compound(
        &mut self,
        structs: &Structs,
        line: u32,
        op: AssignOp,
        target: &Expr,
        source: &Expr,
    ) -> Result<u32, Stop>
        requires target { WellExpr structs.now target.now }
        requires source { WellExpr structs.now source.now }
        ensures { (ends : Ends) → Emits (stmts.compound line (sizes_in structs.now) op (expr (sizes_in structs.now) target.now) (value line (expr (sizes_in structs.now) source.now))) ends self.old self.new result }
    {
        let place = self.expr(structs, line, target)?;
        let old = self.old_value(structs.alloc(), line, &place)?;
        let b = self.argument(structs, line, source)?;
        self.change(structs, line, op, &target.typing, place, old, b)
    }

    /// `++` and `--`, as a sum and a difference.
    pub(crate) fn step(
        &mut self,
        structs: &Structs,
        line: u32,
        op: AssignOp,
        target: &Expr,
    ) -> Result<u32, Stop>
        requires { WellExpr structs.now target.now }
        ensures { (ends : Ends) → Emits (stmts.compound line (sizes_in structs.now) op (expr (sizes_in structs.now) target.now) (spec.constant line (pos 1))) ends self.old self.new result }
    {
        let place = self.expr(structs, line, target)?;
        let old = self.old_value(structs.alloc(), line, &place)?;
        let b = self.constant(line, 1)?;
        self.change(structs, line, op, &target.typing, place, old, b)
    }

    /// An assignment.
    pub(crate) fn assignment(
        &mut self,
        structs: &Structs,
        line: u32,
        op: AssignOp,
        target: &Expr,
        source: &Expr,
    ) -> Result<u32, Stop>
        requires target { WellExpr structs.now target.now }
        requires source { WellExpr structs.now source.now }
        ensures { (ends : Ends) → Emits (stmts.assignment line (sizes_in structs.now) op (expr (sizes_in structs.now) target.now) (value line (expr (sizes_in structs.now) source.now))) ends self.old self.new result }
    {
        if is_plain(op) {
            self.assign(structs, line, target, source)
        } else {
            self.compound(structs, line, op, target, source)
        }
    }

    /// `putint`
    pub(crate) fn put_int(&mut self, structs: &Structs, line: u32, e: &Expr) -> Result<u32, Stop>
        requires { WellExpr structs.now e.now }
        ensures { (ends : Ends) → Emits (stmts.put line (expr (sizes_in structs.now) e.now)) ends self.old self.new result }
    {
        let a = self.argument(structs, line, e)?;
        self.quiet(line, Instr::Out { a })
    }

    pub(crate) fn free(&mut self, structs: &Structs, line: u32, e: &Expr) -> Result<u32, Stop>
        requires { WellExpr structs.now e.now }
        ensures { (ends : Ends) → Emits (stmts.freed line (expr (sizes_in structs.now) e.now)) ends self.old self.new result }
    {
        let a = self.argument(structs, line, e)?;
        self.quiet(line, Instr::Free { a })
    }

    /// A `return`, with 0 where there is no value.
    pub(crate) fn give(
        &mut self,
        structs: &Structs,
        in_main: bool,
        line: u32,
        given: &Option<Expr>,
    ) -> Result<u32, Stop>
        requires { WellExprThere structs.now given.now }
        ensures { (ends : Ends) → Emits (stmts.return (stmts.around_by structs.now in_main) line given.now) ends self.old self.new result }
    {
        match given {
            None => {
                let a = self.constant(line, 0)?;
                self.give_back(in_main, line, a)
            }
            Some(e) => {
                let a = self.argument(structs, line, e)?;
                self.give_back(in_main, line, a)
            }
        }
    }

    fn truth_value(&mut self, structs: &Structs, line: u32, e: &Expr) -> Result<u32, Stop>
        requires { WellExpr structs.now e.now }
        ensures { (ends : Ends) → Emits (truth line (expr (sizes_in structs.now) e.now)) ends self.old self.new result }
    {
        let a = self.argument(structs, line, e)?;
        self.truth_of(line, &e.typing, a)
    }

    /// A condition, and a test that goes past so many instructions where it is 0.
    pub(crate) fn condition(
        &mut self,
        structs: &Structs,
        condition: &Condition,
        past: u32,
    ) -> Result<u32, Stop>
        requires past { past ≤ 65535 }
        requires well { WellExpr structs.now condition.now.value }
        ensures { (ends : Ends) → Emits (stmts.tested condition.now.line.0 (expr (sizes_in structs.now) condition.now.value) past) ends self.old self.new result }
    {
        let line = condition.line.0;
        let a = self.truth_value(structs, line, &condition.value)?;
        self.test(line, a, past)
    }
}
