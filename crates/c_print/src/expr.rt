//! Expressions.

ghost use Rattle.std.specs.Prelude.{◌≡◌, ◌++◌, ◌∷◌, [], OnOk};
ghost use Rattle.c_lex.specs.declared.token.Mark.{Mark};
ghost use Rattle.c_print.specs.TreeTokens as spec;

use crate::precedence::{POSTFIX, PREFIXED, level, precedence};
use crate::sign::{binary_sign, unary_sign};
use crate::tokens::Tokens;
use c_ast::{Expr, Form, Ident, TypeName};
use c_lex::{Mark, Word};
use dfi_base::Memory;

impl Tokens {
    /// An expression at a place that takes this level and those above.
    #[tactic(auto, using(crate::proofs::Levels::loose, crate::proofs::Levels::tight, std::proofs::lemmas::Grind::common_steps))]
    #[cycle(expr)]
    pub fn expr(&mut self, expr: &Expr, place: u8) -> Result<(), Memory>
        ensures { OnOk result (self.new ≡ self.old ++ spec.of_expr expr.now place) }
    {
        if level(expr) < place {
            self.mark(Mark::OpenParen)?;
            self.bare(expr)?;
            self.mark(Mark::CloseParen)
        } else {
            self.bare(expr)
        }
    }

    /// An expression without parentheses round it.
    #[tactic(auto, using(crate::proofs::Forms::forms, std::proofs::lemmas::Grind::common_steps))]
    #[cycle(expr)]
    pub fn bare(&mut self, expr: &Expr) -> Result<(), Memory>
        ensures { OnOk result (self.new ≡ self.old ++ spec.of_whole expr.now) }
    {
        match &expr.form {
            Form::Binary { left, op, right } => {
                let own = precedence(*op);
                self.expr(left.get(), own)?;
                self.mark(binary_sign(*op))?;
                self.expr(right.get(), own + 1)
            }
            Form::Unary { op, operand } => {
                self.mark(unary_sign(*op))?;
                self.expr(operand.get(), PREFIXED)
            }
            Form::Cast { to, operand } => {
                self.type_in_parens(*to)?;
                self.expr(operand.get(), PREFIXED)
            }
            Form::Index { array, index } => {
                self.expr(array.get(), POSTFIX)?;
                self.mark(Mark::OpenBracket)?;
                self.bare(index.get())?;
                self.mark(Mark::CloseBracket)
            }
            Form::Field { whole, field } => {
                self.expr(whole.get(), POSTFIX)?;
                self.field(Mark::Dot, *field)
            }
            Form::Arrow { pointer, field } => {
                self.expr(pointer.get(), POSTFIX)?;
                self.field(Mark::Arrow, *field)
            }
            Form::Number(value) => self.number(*value),
            Form::Null => self.word(Word::Null),
            Form::Name(name) => self.name(*name),
            Form::Call {
                function,
                arguments,
            } => self.call(*function, arguments.as_slice()),
            Form::Sizeof(of) => {
                self.word(Word::Sizeof)?;
                self.type_in_parens(*of)
            }
        }
    }

    fn field(&mut self, mark: Mark, field: Ident) -> Result<(), Memory>
        ensures { OnOk result (self.new ≡ self.old ++ spec.mark mark ∷ spec.name field ∷ []) }
    {
        self.mark(mark)?;
        self.name(field)
    }

    fn type_in_parens(&mut self, name: TypeName) -> Result<(), Memory>
        ensures { OnOk result (self.new ≡ self.old ++ spec.in_parens (spec.of_type name)) }
    {
        self.mark(Mark::OpenParen)?;
        self.type_name(name)?;
        self.mark(Mark::CloseParen)
    }

    #[cycle(expr)]
    pub fn call(&mut self, function: Ident, arguments: &[Expr]) -> Result<(), Memory>
        ensures { OnOk result (self.new ≡ self.old ++ spec.of_call function arguments.now) }
    {
        self.name(function)?;
        self.mark(Mark::OpenParen)?;
        self.arguments(arguments)?;
        self.mark(Mark::CloseParen)
    }

    #[cycle(expr)]
    fn arguments(&mut self, arguments: &[Expr]) -> Result<(), Memory>
        ensures { OnOk result (self.new ≡ self.old ++ spec.with_commas spec.of_whole arguments.now) }
    {
        let [first, others @ ..] = arguments else {
            return Ok(());
        };
        self.bare(first)?;
        for other in others {
            self.mark(Mark::Comma)?;
            self.bare(other)?;
        }
        Ok(())
    }
}
