//! The tokens that are not read yet.

ghost use Rattle.std.specs.Prelude.{◌≡◌, ◌≤◌, length};
ghost use Rattle.dfi_base.specs.Limits.{token_limit};
ghost use Rattle.parse_law.specs.tools.Parsing.{skip, finish, done};
ghost use Rattle.c_parse.specs.Symbol.{symbols_of};
ghost use Rattle.c_parse.specs.tools.Tokens as spec;
ghost use Rattle.c_parse.specs.tools.ExprParser as exprs;
ghost use Rattle.c_parse.specs.tools.StmtParser as stmts;
ghost use Rattle.c_parse.specs.tools.Reads.{Reads};

use crate::operators::{Tier, assign_op, binary_in, unary_op};
use c_ast::{AssignOp, BinaryOp, Ident, UnaryOp};
use c_lex::{Kind, Mark, Token, Word};
use dfi_base::Line;
use std::alloc::{AllocError, AllocFailed};
use std::marker::Model;

/// Why a form is not read, with the number of tokens from the one at fault on.
#[derive(Debug, Drop)]
pub enum Failure {
    Memory,
    Unexpected(u32),
    Deep(u32),
}

impl From<AllocError> for Failure {
    ghost use Rattle.c_parse.specs.declared.cursor.Failure.{Failure};

    ghost from_gives = { λ _ e. e ≡ Failure.Memory };

    fn from(_: AllocError) -> Failure {
        Failure::Memory
    }
}

impl<T: Drop> From<AllocFailed<T>> for Failure {
    ghost use Rattle.c_parse.specs.declared.cursor.Failure.{Failure};

    ghost from_gives = { λ _ e. e ≡ Failure.Memory };

    fn from(_: AllocFailed<T>) -> Failure {
        Failure::Memory
    }
}

#[derive(Drop)]
pub struct Cursor<'a> {
    rest: &'a [Token],
}

impl<'a> Model for Cursor<'a> {
    ghost use Rattle.c_parse.specs.Symbol.{Symbols, symbols_of};

    ghost Value = { Symbols };

    ghost view = { λ c. symbols_of c.rest.now };

    ghost use Rattle.std.specs.Prelude.{◌≤◌, length};
    ghost use Rattle.dfi_base.specs.Limits.{token_limit};

    ghost invariant = { λ c. length c.rest.now ≤ token_limit };
}

impl<'a> Cursor<'a> {
    pub fn new(rest: &'a [Token]) -> Cursor<'a>
        requires { length rest.now ≤ token_limit }
        ensures { result ≡ symbols_of rest.now }
    {
        Cursor { rest }
    }

    /// How many there are.
    pub fn left(&self) -> u32
        ensures count { result ≡ length self.now }
        ensures few { result ≤ token_limit }
    {
        self.rest.len() as u32
    }

    pub fn kind(&self) -> Option<Kind>
        ensures { result ≡ spec.kind_of (spec.next self.now) }
    {
        match self.rest {
            [] => None,
            [token, ..] => Some(token.kind),
        }
    }

    pub fn line(&self) -> Option<Line>
        ensures { result ≡ spec.line_next (spec.next self.now) }
    {
        match self.rest {
            [] => None,
            [token, ..] => Some(token.line),
        }
    }

    pub fn is_mark(&self, mark: Mark) -> bool
        ensures { result ≡ spec.is_mark mark (spec.kind_of (spec.next self.now)) }
    {
        match self.kind() {
            Some(Kind::Mark(found)) => found == mark,
            _ => false,
        }
    }

    pub fn is_word(&self, word: Word) -> bool
        ensures { result ≡ spec.is_word word (spec.kind_of (spec.next self.now)) }
    {
        match self.kind() {
            Some(Kind::Word(found)) => found == word,
            _ => false,
        }
    }

    pub fn is_ident(&self) -> bool
        ensures { result ≡ spec.is_ident (spec.kind_of (spec.next self.now)) }
    {
        matches!(self.kind(), Some(Kind::Id(_)))
    }

    /// Past the next token.
    fn skip(&mut self)
        ensures { skip self.old ≡ done tt self.new }
    {
        if let [_, rest @ ..] = self.rest {
            self.rest = rest;
        }
    }

    /// No token is left.
    pub fn finish(&self) -> Result<(), Failure>
        ensures { Reads (finish self.now) result self.now }
    {
        match self.kind() {
            None => Ok(()),
            Some(_) => Err(Failure::Unexpected(self.left())),
        }
    }

    #[tactic(auto, unfolding(crate::specs::tools::Tokens::want))]
    pub fn mark(&mut self, mark: Mark) -> Result<Line, Failure>
        ensures { Reads (spec.want (spec.mark_at mark) self.old) result self.new }
    {
        match self.mark_value(mark) {
            Some(line) => {
                self.skip();
                Ok(line)
            }
            None => Err(Failure::Unexpected(self.left())),
        }
    }

    #[tactic(auto, unfolding(crate::specs::tools::Tokens::want))]
    pub fn word(&mut self, word: Word) -> Result<Line, Failure>
        ensures { Reads (spec.want (spec.word_at word) self.old) result self.new }
    {
        match self.word_value(word) {
            Some(line) => {
                self.skip();
                Ok(line)
            }
            None => Err(Failure::Unexpected(self.left())),
        }
    }

    #[tactic(auto, unfolding(crate::specs::tools::Tokens::want))]
    pub fn ident(&mut self) -> Result<Ident, Failure>
        ensures { Reads (spec.want spec.ident_at self.old) result self.new }
    {
        match self.ident_value() {
            Some(ident) => {
                self.skip();
                Ok(ident)
            }
            None => Err(Failure::Unexpected(self.left())),
        }
    }

    #[tactic(auto, unfolding(crate::specs::tools::Tokens::want))]
    pub fn number(&mut self) -> Result<i32, Failure>
        ensures { Reads (spec.want spec.number_at self.old) result self.new }
    {
        match self.number_value() {
            Some(value) => {
                self.skip();
                Ok(value)
            }
            None => Err(Failure::Unexpected(self.left())),
        }
    }

    /// An operator between two operands.
    #[tactic(auto, unfolding(crate::specs::tools::Tokens::want))]
    pub fn binary(&mut self, tier: Tier) -> Result<BinaryOp, Failure>
        ensures { Reads (spec.want (exprs.binary_at tier) self.old) result self.new }
    {
        match self.binary_value(tier) {
            Some(op) => {
                self.skip();
                Ok(op)
            }
            None => Err(Failure::Unexpected(self.left())),
        }
    }

    /// An operator before an operand.
    #[tactic(auto, unfolding(crate::specs::tools::Tokens::want))]
    pub fn unary(&mut self) -> Result<UnaryOp, Failure>
        ensures { Reads (spec.want exprs.unary_at self.old) result self.new }
    {
        match self.unary_value() {
            Some(op) => {
                self.skip();
                Ok(op)
            }
            None => Err(Failure::Unexpected(self.left())),
        }
    }

    #[tactic(auto, unfolding(crate::specs::tools::Tokens::want))]
    pub fn assign(&mut self) -> Result<AssignOp, Failure>
        ensures { Reads (spec.want stmts.assign_at self.old) result self.new }
    {
        match self.assign_value() {
            Some(op) => {
                self.skip();
                Ok(op)
            }
            None => Err(Failure::Unexpected(self.left())),
        }
    }

    fn binary_value(&self, tier: Tier) -> Option<BinaryOp>
        ensures { result ≡ spec.value_of (exprs.binary_at tier) (spec.next self.now) }
    {
        match self.rest {
            [] => None,
            [token, ..] => binary_in(tier, Some(token.kind)),
        }
    }

    fn unary_value(&self) -> Option<UnaryOp>
        ensures { result ≡ spec.value_of exprs.unary_at (spec.next self.now) }
    {
        match self.rest {
            [
                Token {
                    kind: Kind::Mark(mark),
                    ..
                },
                ..
            ] => unary_op(*mark),
            _ => None,
        }
    }

    fn assign_value(&self) -> Option<AssignOp>
        ensures { result ≡ spec.value_of stmts.assign_at (spec.next self.now) }
    {
        match self.rest {
            [
                Token {
                    kind: Kind::Mark(mark),
                    ..
                },
                ..
            ] => assign_op(*mark),
            _ => None,
        }
    }

    fn mark_value(&self, mark: Mark) -> Option<Line>
        ensures { result ≡ spec.value_of (spec.mark_at mark) (spec.next self.now) }
    {
        match self.rest {
            [
                Token {
                    kind: Kind::Mark(found),
                    line,
                    ..
                },
                ..
            ] if *found == mark => Some(*line),
            _ => None,
        }
    }

    fn word_value(&self, word: Word) -> Option<Line>
        ensures { result ≡ spec.value_of (spec.word_at word) (spec.next self.now) }
    {
        match self.rest {
            [
                Token {
                    kind: Kind::Word(found),
                    line,
                    ..
                },
                ..
            ] if *found == word => Some(*line),
            _ => None,
        }
    }

    fn ident_value(&self) -> Option<Ident>
        ensures { result ≡ spec.value_of spec.ident_at (spec.next self.now) }
    {
        match self.rest {
            [
                Token {
                    kind: Kind::Id(name),
                    line,
                    ..
                },
                ..
            ] => Some(Ident {
                line: *line,
                name: *name,
            }),
            _ => None,
        }
    }

    fn number_value(&self) -> Option<i32>
        ensures { result ≡ spec.value_of spec.number_at (spec.next self.now) }
    {
        match self.rest {
            [
                Token {
                    kind: Kind::Num(value),
                    ..
                },
                ..
            ] => Some(*value),
            _ => None,
        }
    }
}
