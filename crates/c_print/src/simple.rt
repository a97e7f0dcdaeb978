//! Simple statements.

ghost use Rattle.std.specs.Prelude.{◌≡◌, ◌++◌, OnOk};
ghost use Rattle.c_print.specs.TreeTokens as spec;

use crate::precedence::{POSTFIX, PREFIXED};
use crate::sign::assign_sign;
use crate::tokens::Tokens;
use c_ast::Simple;
use c_lex::Mark;
use dfi_base::Memory;

impl Tokens {
    pub fn simple(&mut self, simple: &Simple) -> Result<(), Memory>
        ensures { OnOk result (self.new ≡ self.old ++ spec.of_simple simple.now) }
    {
        match simple {
            Simple::Assign {
                target,
                op,
                value,
                ..
            } => {
                self.expr(target, PREFIXED)?;
                self.mark(assign_sign(*op))?;
                self.bare(value)
            }
            Simple::Increment { target, .. } => {
                self.expr(target, POSTFIX)?;
                self.mark(Mark::PlusPlus)
            }
            Simple::Decrement { target, .. } => {
                self.expr(target, POSTFIX)?;
                self.mark(Mark::MinusMinus)
            }
            Simple::PreIncrement { target, .. } => {
                self.mark(Mark::PlusPlus)?;
                self.expr(target, PREFIXED)
            }
            Simple::PreDecrement { target, .. } => {
                self.mark(Mark::MinusMinus)?;
                self.expr(target, PREFIXED)
            }
            Simple::Call {
                function,
                arguments,
            } => self.call(*function, arguments.as_slice()),
        }
    }

    pub fn simple_if_any(&mut self, simple: &Option<Simple>) -> Result<(), Memory>
        ensures { OnOk result (self.new ≡ self.old ++ spec.if_some spec.of_simple simple.now) }
    {
        match simple {
            None => Ok(()),
            Some(simple) => self.simple(simple),
        }
    }
}
