//! What follows the operands of an expression.

ghost use Rattle.std.specs.Prelude.{pos, ◌≡◌};
ghost use Rattle.tac_lower.specs.declared.draft.Ends.{Ends};
ghost use Rattle.tac_lower.specs.tools.Emits.{Emits};
ghost use Rattle.c_typed.specs.Elaboration.{Operation};
ghost use Rattle.tac_lower.specs.tools.Plans.{operation_of, truth_by_int};
ghost use Rattle.tac_lower.specs.Instrs as spec;
ghost use Rattle.tac_lower.specs.Values as values;
ghost use Rattle.tac_lower.specs.Values.{against_null, truth_by, negation, prefix, carried};

use crate::plan::{Plan, is_int};
use crate::writer::{Stop, Writer};
use c_ast::BinaryOp;
use c_typed::{ExprType, PrefixOp};
use tac_ir::{BinOp, Instr, UnOp};

/// The instruction's operator on two words.
fn operator(op: BinaryOp) -> BinOp
    ensures { result ≡ values.operator op }
{
    match op {
        BinaryOp::Or | BinaryOp::BitOr => BinOp::Or,
        BinaryOp::And | BinaryOp::BitAnd => BinOp::And,
        BinaryOp::BitXor => BinOp::Xor,
        BinaryOp::Equal => BinOp::Eq,
        BinaryOp::NotEqual => BinOp::Ne,
        BinaryOp::Less => BinOp::Lt,
        BinaryOp::Greater => BinOp::Gt,
        BinaryOp::LessEqual => BinOp::Le,
        BinaryOp::GreaterEqual => BinOp::Ge,
        BinaryOp::ShiftLeft => BinOp::Shl,
        BinaryOp::ShiftRight => BinOp::Shr,
        BinaryOp::Add => BinOp::Add,
        BinaryOp::Sub => BinOp::Sub,
        BinaryOp::Mul => BinOp::Mul,
        BinaryOp::Div => BinOp::Quo,
        BinaryOp::Rem => BinOp::Rem,
    }
}

impl Writer {
    pub(crate) fn constant(&mut self, line: u32, k: i32) -> Result<u32, Stop>
        ensures { (ends : Ends) → Emits (spec.constant line k) ends self.old self.new result }
    {
        let to = self.next.temp;
        self.fresh(line, Instr::Const { to, k })
    }

    fn prefixed(&mut self, line: u32, op: UnOp, a: u32) -> Result<u32, Stop>
        ensures { (ends : Ends) → Emits (spec.prefixed line op a) ends self.old self.new result }
    {
        let to = self.next.temp;
        self.fresh(line, Instr::Un { to, op, a })
    }

    pub(crate) fn index(&mut self, line: u32, words: u32, a: u32, b: u32) -> Result<u32, Stop>
        ensures { (ends : Ends) → Emits (spec.index line words a b) ends self.old self.new result }
    {
        let to = self.next.temp;
        self.fresh(line, Instr::Index { to, a, b, words })
    }

    fn same(&mut self, line: u32, ne: bool, a: u32, b: u32) -> Result<u32, Stop>
        ensures { (ends : Ends) → Emits (spec.same line ne a b) ends self.old self.new result }
    {
        let to = self.next.temp;
        self.fresh(line, Instr::Same { to, ne, a, b })
    }

    fn against_null(&mut self, line: u32, ne: bool, a: u32) -> Result<u32, Stop>
        ensures { (ends : Ends) → Emits (against_null line ne a) ends self.old self.new result }
    {
        let to = self.next.temp;
        let null = self.fresh(line, Instr::Null { to })?;
        self.same(line, ne, a, null)
    }

    /// The truth value of an `int` or a pointer.
    pub(crate) fn truth_of(&mut self, line: u32, typing: &ExprType, a: u32) -> Result<u32, Stop>
        ensures { (ends : Ends) → Emits (truth_by line typing.now a) ends self.old self.new result }
    {
        if is_int(typing) {
            Ok(a)
        } else {
            self.against_null(line, true, a)
        }
    }

    fn negation(&mut self, line: u32, int: bool, a: u32) -> Result<u32, Stop>
        ensures { (ends : Ends) → Emits (negation line (truth_by_int int) a) ends self.old self.new result }
    {
        if int {
            self.prefixed(line, UnOp::Not, a)
        } else {
            self.against_null(line, false, a)
        }
    }

    pub(crate) fn prefix(
        &mut self,
        line: u32,
        op: PrefixOp,
        typing: &ExprType,
        a: u32,
    ) -> Result<u32, Stop>
        ensures { (ends : Ends) → Emits (prefix line op typing.now a) ends self.old self.new result }
    {
        match op {
            PrefixOp::Minus => self.prefixed(line, UnOp::Neg, a),
            PrefixOp::Complement => self.prefixed(line, UnOp::Com, a),
            PrefixOp::Not => self.negation(line, is_int(typing), a),
        }
    }

    /// `a`, moved down by `b` items.
    fn back(&mut self, line: u32, words: u32, a: u32, b: u32) -> Result<u32, Stop>
        ensures { (ends : Ends) → Emits (carried line (Operation.move_down words) a b) ends self.old self.new result }
    {
        let number = self.prefixed(line, UnOp::Neg, b)?;
        self.index(line, words, a, number)
    }

    pub(crate) fn carry(&mut self, line: u32, plan: Plan, a: u32, b: u32) -> Result<u32, Stop>
        ensures { (ends : Ends) → Emits (carried line (operation_of plan) a b) ends self.old self.new result }
    {
        match plan {
            Plan::Words(op) => {
                let (to, op) = (self.next.temp, operator(op));
                self.fresh(line, Instr::Bin { to, op, a, b })
            }
            Plan::MoveUp { words } => self.index(line, words, a, b),
            Plan::MoveRightUp { words } => self.index(line, words, b, a),
            Plan::MoveDown { words } => self.back(line, words, a, b),
            Plan::SamePointers => self.same(line, false, a, b),
            Plan::OtherPointers => self.same(line, true, a, b),
        }
    }
}
