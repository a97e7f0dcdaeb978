//! Expressions.

ghost use Rattle.std.specs.Prelude.{◌≡◌, [], ◌∷◌};
ghost use Rattle.parse_law.specs.tools.Parsing.{rising};
ghost use Rattle.c_parse.specs.tools.ExprParser as spec;
ghost use Rattle.c_parse.specs.tools.Reads.{Reads};
ghost use Rattle.c_parse.specs.tools.Nests.{Nests};
ghost use Rattle.dfi_base.specs.Limits.{nesting_limit};

use crate::cursor::{Cursor, Failure};
use crate::nodes;
use crate::operators::{TIERS, Tier, is_binary};
use crate::sorts::{
    OperandStart, SuffixStart, is_base, is_operand, is_suffix, operand_start, suffix_start,
};
use crate::subject::Subject;
use crate::types::type_name;
use c_ast::{Expr, Form, Ident};
use c_lex::{Mark, Word};
use dfi_base::Line;
use dfi_base::limits::NESTING_LIMIT;
use sqlite_items::Items;
use std::alloc::Global;

/// The forms of expressions, over a parser of the operands in them, which may still nest `fuel` times.
#[derive(Clone, Copy)]
pub struct Exprs<F> {
    pub alloc: Global,
    pub fuel: u32,
    pub subject: F,
}

impl<F: Fn(Global, &mut Cursor<'_>, u32, u32) -> Result<Subject, Failure>> Exprs<F> {
    pub fn unary(&self, cursor: &mut Cursor<'_>, counter: u32) -> Result<Expr, Failure>
        requires { Nests self.now.fuel (F.pre self.now.subject) (F.post self.now.subject) }
        ensures { Reads (spec.operands self.now.fuel counter cursor.old) result cursor.new }
    {
        let subject = (self.subject)(self.alloc, cursor, self.fuel, counter)?;
        Ok(subject.into_expr())
    }

    #[cycle(level)]
    #[tactic(auto, unfolding(crate::specs::tools::ExprParser::right))]
    fn right(
        &self,
        cursor: &mut Cursor<'_>,
        tier: Tier,
        lower: &[Tier],
        line: Line,
        left: Expr,
        counter: u32,
    ) -> Result<(Expr, u32), Failure>
        requires { Nests self.now.fuel (F.pre self.now.subject) (F.post self.now.subject) }
        ensures { Reads (spec.right tier (spec.level nesting_limit (spec.operands self.now.fuel) lower.now) line left counter cursor.old) result cursor.new }
    {
        let op = cursor.binary(tier)?;
        let (right, counter) = self.level(cursor, lower, counter)?;
        let whole = nodes::binary(self.alloc, line, left, op, right)?;
        Ok((whole, counter))
    }

    #[cycle(level)]
    fn operator(
        &self,
        cursor: &mut Cursor<'_>,
        tier: Tier,
        lower: &[Tier],
        line: Line,
        found: (Expr, u32),
    ) -> Result<(Expr, u32), Failure>
        requires { Nests self.now.fuel (F.pre self.now.subject) (F.post self.now.subject) }
        ensures { Reads (rising nesting_limit found.1 (spec.right tier (spec.level nesting_limit (spec.operands self.now.fuel) lower.now) line found.0) cursor.old) result cursor.new }
    {
        let (left, counter) = found;
        if counter >= NESTING_LIMIT {
            return Err(Failure::Deep(cursor.left()));
        }
        self.right(cursor, tier, lower, line, left, counter + 1)
    }

    #[cycle(level)]
    fn operators(
        &self,
        cursor: &mut Cursor<'_>,
        tier: Tier,
        lower: &[Tier],
        line: Line,
        mut found: (Expr, u32),
    ) -> Result<(Expr, u32), Failure>
        requires { Nests self.now.fuel (F.pre self.now.subject) (F.post self.now.subject) }
        ensures { Reads (spec.operators tier (spec.level nesting_limit (spec.operands self.now.fuel) lower.now) line nesting_limit found cursor.old) result cursor.new }
    {
        let turns = cursor.left() + 1;
        for _turn in 0..turns {
            if !is_binary(tier, cursor.kind()) {
                return Ok(found);
            }
            found = self.operator(cursor, tier, lower, line, found)?;
        }
        Err(Failure::Unexpected(cursor.left()))
    }

    #[cycle(level)]
    #[tactic(auto, unfolding(crate::specs::tools::ExprParser::chain))]
    fn chain(
        &self,
        cursor: &mut Cursor<'_>,
        tier: Tier,
        lower: &[Tier],
        counter: u32,
    ) -> Result<(Expr, u32), Failure>
        requires { Nests self.now.fuel (F.pre self.now.subject) (F.post self.now.subject) }
        ensures { Reads (spec.chain nesting_limit tier (spec.level nesting_limit (spec.operands self.now.fuel) lower.now) counter cursor.old) result cursor.new }
    {
        match cursor.line() {
            Some(line) => {
                let first = self.level(cursor, lower, counter)?;
                self.operators(cursor, tier, lower, line, first)
            }
            None => Err(Failure::Unexpected(cursor.left())),
        }
    }

    /// Operands with the operators of these tiers, lowest first.
    #[cycle(level)]
    #[tactic(auto, unfolding(crate::specs::tools::ExprParser::level))]
    fn level(
        &self,
        cursor: &mut Cursor<'_>,
        tiers: &[Tier],
        counter: u32,
    ) -> Result<(Expr, u32), Failure>
        requires { Nests self.now.fuel (F.pre self.now.subject) (F.post self.now.subject) }
        ensures { Reads (spec.level nesting_limit (spec.operands self.now.fuel) tiers.now counter cursor.old) result cursor.new }
    {
        match tiers {
            [] => {
                let operand = self.unary(cursor, counter)?;
                Ok((operand, counter))
            }
            [tier, lower @ ..] => self.chain(cursor, *tier, lower, counter),
        }
    }

    #[tactic(auto, unfolding(crate::specs::tools::ExprParser::expr))]
    pub fn expr(&self, cursor: &mut Cursor<'_>, counter: u32) -> Result<Expr, Failure>
        requires { Nests self.now.fuel (F.pre self.now.subject) (F.post self.now.subject) }
        ensures { Reads (spec.expr nesting_limit (spec.operands self.now.fuel) counter cursor.old) result cursor.new }
    {
        let (expr, _) = self.level(cursor, &TIERS, counter)?;
        Ok(expr)
    }

    fn more_arguments(
        &self,
        cursor: &mut Cursor<'_>,
        mut found: Items<Expr>,
        counter: u32,
    ) -> Result<Items<Expr>, Failure>
        requires { Nests self.now.fuel (F.pre self.now.subject) (F.post self.now.subject) }
        ensures { Reads (spec.more_arguments nesting_limit (spec.operands self.now.fuel) counter found cursor.old) result cursor.new }
    {
        let turns = cursor.left() + 1;
        for _turn in 0..turns {
            if !cursor.is_mark(Mark::Comma) {
                return Ok(found);
            }
            cursor.mark(Mark::Comma)?;
            let next = self.expr(cursor, counter)?;
            found.push(next)?;
        }
        Err(Failure::Unexpected(cursor.left()))
    }

    /// Behind the opening parenthesis of a call.
    #[tactic(auto, unfolding(crate::specs::tools::ExprParser::arguments))]
    fn arguments(&self, cursor: &mut Cursor<'_>, counter: u32) -> Result<Items<Expr>, Failure>
        requires { Nests self.now.fuel (F.pre self.now.subject) (F.post self.now.subject) }
        ensures { Reads (spec.arguments nesting_limit (spec.operands self.now.fuel) counter cursor.old) result cursor.new }
    {
        if cursor.is_mark(Mark::CloseParen) {
            cursor.mark(Mark::CloseParen)?;
            return Ok(Items::new(self.alloc));
        }
        let first = self.expr(cursor, counter)?;
        self.arguments_rest(cursor, first, counter)
    }

    /// Behind the first.
    fn arguments_rest(
        &self,
        cursor: &mut Cursor<'_>,
        first: Expr,
        counter: u32,
    ) -> Result<Items<Expr>, Failure>
        requires { Nests self.now.fuel (F.pre self.now.subject) (F.post self.now.subject) }
        ensures { Reads (spec.arguments_rest nesting_limit (spec.operands self.now.fuel) counter first cursor.old) result cursor.new }
    {
        let mut found = Items::new(self.alloc);
        found.push(first)?;
        let arguments = self.more_arguments(cursor, found, counter)?;
        cursor.mark(Mark::CloseParen)?;
        Ok(arguments)
    }

    #[tactic(auto, unfolding(crate::specs::tools::ExprParser::suffix))]
    fn suffix(
        &self,
        cursor: &mut Cursor<'_>,
        line: Line,
        operand: Expr,
        counter: u32,
    ) -> Result<(Expr, u32), Failure>
        requires { Nests self.now.fuel (F.pre self.now.subject) (F.post self.now.subject) }
        ensures { Reads (spec.suffix nesting_limit (spec.operands self.now.fuel) line operand counter cursor.old) result cursor.new }
    {
        match suffix_start(cursor.kind()) {
            SuffixStart::Index => {
                cursor.mark(Mark::OpenBracket)?;
                let index = self.expr(cursor, counter)?;
                cursor.mark(Mark::CloseBracket)?;
                let whole = nodes::index(self.alloc, line, operand, index)?;
                Ok((whole, counter))
            }
            SuffixStart::Field => {
                cursor.mark(Mark::Dot)?;
                let field = cursor.ident()?;
                let whole = nodes::field(self.alloc, line, operand, field)?;
                Ok((whole, counter))
            }
            SuffixStart::Arrow => {
                cursor.mark(Mark::Arrow)?;
                let field = cursor.ident()?;
                let whole = nodes::arrow(self.alloc, line, operand, field)?;
                Ok((whole, counter))
            }
            SuffixStart::Other => Err(Failure::Unexpected(cursor.left())),
        }
    }

    fn suffix_after(
        &self,
        cursor: &mut Cursor<'_>,
        line: Line,
        found: (Expr, u32),
    ) -> Result<(Expr, u32), Failure>
        requires { Nests self.now.fuel (F.pre self.now.subject) (F.post self.now.subject) }
        ensures { Reads (spec.suffix_after nesting_limit (spec.operands self.now.fuel) line found cursor.old) result cursor.new }
    {
        let (operand, counter) = found;
        if counter >= NESTING_LIMIT {
            return Err(Failure::Deep(cursor.left()));
        }
        self.suffix(cursor, line, operand, counter + 1)
    }

    fn suffixes(
        &self,
        cursor: &mut Cursor<'_>,
        line: Line,
        mut found: (Expr, u32),
    ) -> Result<(Expr, u32), Failure>
        requires { Nests self.now.fuel (F.pre self.now.subject) (F.post self.now.subject) }
        ensures { Reads (spec.suffixes nesting_limit (spec.operands self.now.fuel) line found cursor.old) result cursor.new }
    {
        let turns = cursor.left() + 1;
        for _turn in 0..turns {
            if !is_suffix(cursor.kind()) {
                return Ok(found);
            }
            found = self.suffix_after(cursor, line, found)?;
        }
        Err(Failure::Unexpected(cursor.left()))
    }

    #[tactic(auto, unfolding(crate::specs::tools::ExprParser::postfix))]
    fn postfix(
        &self,
        cursor: &mut Cursor<'_>,
        line: Line,
        counter: u32,
        operand: Expr,
    ) -> Result<Subject, Failure>
        requires { Nests self.now.fuel (F.pre self.now.subject) (F.post self.now.subject) }
        ensures { Reads (spec.postfix nesting_limit (spec.operands self.now.fuel) line counter operand cursor.old) result cursor.new }
    {
        let (whole, _) = self.suffixes(cursor, line, (operand, counter))?;
        Ok(Subject::Postfix(whole))
    }

    /// Behind the opening parenthesis of a call.
    #[tactic(auto, unfolding(crate::specs::tools::ExprParser::called))]
    fn called(
        &self,
        cursor: &mut Cursor<'_>,
        line: Line,
        counter: u32,
        function: Ident,
    ) -> Result<Subject, Failure>
        requires { Nests self.now.fuel (F.pre self.now.subject) (F.post self.now.subject) }
        ensures { Reads (spec.called nesting_limit (spec.operands self.now.fuel) line counter function cursor.old) result cursor.new }
    {
        let arguments = self.arguments(cursor, counter)?;
        let call = Subject::Call(function, arguments);
        if is_suffix(cursor.kind()) {
            return self.postfix(cursor, line, counter, call.into_expr());
        }
        Ok(call)
    }

    /// Behind a name.
    #[tactic(auto, unfolding(crate::specs::tools::ExprParser::named))]
    fn named(
        &self,
        cursor: &mut Cursor<'_>,
        line: Line,
        counter: u32,
        name: Ident,
    ) -> Result<Subject, Failure>
        requires { Nests self.now.fuel (F.pre self.now.subject) (F.post self.now.subject) }
        ensures { Reads (spec.named nesting_limit (spec.operands self.now.fuel) line counter name cursor.old) result cursor.new }
    {
        if cursor.is_mark(Mark::OpenParen) {
            cursor.mark(Mark::OpenParen)?;
            return self.called(cursor, line, counter, name);
        }
        let operand = Expr {
            line: name.line,
            form: Form::Name(name),
        };
        self.postfix(cursor, line, counter, operand)
    }

    /// Behind an opening parenthesis: a cast where a type comes next.
    #[tactic(auto, unfolding(crate::specs::tools::ExprParser::opened))]
    fn opened(&self, cursor: &mut Cursor<'_>, line: Line, counter: u32) -> Result<Subject, Failure>
        requires { Nests self.now.fuel (F.pre self.now.subject) (F.post self.now.subject) }
        ensures { Reads (spec.opened nesting_limit (spec.operands self.now.fuel) line counter cursor.old) result cursor.new }
    {
        if is_base(cursor.kind()) {
            let to = type_name(cursor)?;
            cursor.mark(Mark::CloseParen)?;
            let operand = self.unary(cursor, counter)?;
            let cast = nodes::cast(self.alloc, line, to, operand)?;
            return Ok(Subject::Prefixed(cast));
        }
        let inside = self.expr(cursor, counter)?;
        cursor.mark(Mark::CloseParen)?;
        self.postfix(cursor, line, counter, inside)
    }

    #[tactic(auto, unfolding(crate::specs::tools::ExprParser::operand_from))]
    fn operand_from(
        &self,
        cursor: &mut Cursor<'_>,
        counter: u32,
        line: Line,
    ) -> Result<Subject, Failure>
        requires { Nests self.now.fuel (F.pre self.now.subject) (F.post self.now.subject) }
        ensures { Reads (spec.operand_from nesting_limit (spec.operands self.now.fuel) counter line cursor.old) result cursor.new }
    {
        match operand_start(cursor.kind()) {
            OperandStart::Prefix => {
                let op = cursor.unary()?;
                let operand = self.unary(cursor, counter)?;
                let whole = nodes::unary(self.alloc, line, op, operand)?;
                Ok(Subject::Prefixed(whole))
            }
            OperandStart::Paren => {
                cursor.mark(Mark::OpenParen)?;
                self.opened(cursor, line, counter)
            }
            OperandStart::Number => {
                let form = Form::Number(cursor.number()?);
                self.postfix(cursor, line, counter, Expr { line, form })
            }
            OperandStart::Null => {
                cursor.word(Word::Null)?;
                let form = Form::Null;
                self.postfix(cursor, line, counter, Expr { line, form })
            }
            OperandStart::Name => {
                let name = cursor.ident()?;
                self.named(cursor, line, counter, name)
            }
            OperandStart::Sizeof => {
                cursor.word(Word::Sizeof)?;
                cursor.mark(Mark::OpenParen)?;
                let of = type_name(cursor)?;
                cursor.mark(Mark::CloseParen)?;
                let form = Form::Sizeof(of);
                self.postfix(cursor, line, counter, Expr { line, form })
            }
            OperandStart::Other => Err(Failure::Unexpected(cursor.left())),
        }
    }

    #[tactic(auto, unfolding(crate::specs::tools::ExprParser::operand))]
    fn operand(&self, cursor: &mut Cursor<'_>, counter: u32) -> Result<Subject, Failure>
        requires { Nests self.now.fuel (F.pre self.now.subject) (F.post self.now.subject) }
        ensures { Reads (spec.operand nesting_limit (spec.operands self.now.fuel) counter cursor.old) result cursor.new }
    {
        match cursor.line() {
            Some(line) => self.operand_from(cursor, counter, line),
            None => Err(Failure::Unexpected(cursor.left())),
        }
    }
}

/// An operand that may hold others, as deep as `fuel`.
#[tactic(auto, unfolding(crate::specs::tools::ExprParser::subject))]
pub fn subject(
    alloc: Global,
    cursor: &mut Cursor<'_>,
    fuel: u32,
    counter: u32,
) -> Result<Subject, Failure>
    ensures { Reads (spec.subject nesting_limit fuel counter cursor.old) result cursor.new }
{
    if !is_operand(cursor.kind()) {
        return Err(Failure::Unexpected(cursor.left()));
    }
    if counter >= NESTING_LIMIT || fuel == 0 {
        return Err(Failure::Deep(cursor.left()));
    }
    let inner = Exprs {
        alloc,
        fuel: fuel - 1,
        subject,
    };
    inner.operand(cursor, counter + 1)
}
