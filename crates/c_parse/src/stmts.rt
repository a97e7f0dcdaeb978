//! Statements.

ghost use Rattle.std.specs.Prelude.{◌≡◌, [], ◌∷◌};
ghost use Rattle.c_parse.specs.tools.StmtParser as spec;
ghost use Rattle.c_parse.specs.tools.Reads.{Reads};
ghost use Rattle.c_parse.specs.tools.Nests.{NestsStmts};
ghost use Rattle.dfi_base.specs.Limits.{nesting_limit};

use crate::cursor::{Cursor, Failure};
use crate::decls::decl;
use crate::simple::{condition, for_start, optional_expr, optional_simple, simple};
use crate::sorts::{StmtStart, is_base, is_open, is_stmt, stmt_start};
use c_ast::{Block, BlockItem, Expr, ForStart, Stmt};
use c_lex::{Mark, Word};
use dfi_base::Line;
use dfi_base::limits::NESTING_LIMIT;
use sqlite_items::{Boxed, Items};
use std::alloc::Global;

/// The forms of statements, over a parser of the statements in them, which may still nest `fuel` times.
#[derive(Clone, Copy)]
pub struct Stmts<F> {
    pub alloc: Global,
    pub fuel: u32,
    pub stmt: F,
}

impl<F: Fn(Global, &mut Cursor<'_>, u32, u32) -> Result<Stmt, Failure>> Stmts<F> {
    fn inner(&self, cursor: &mut Cursor<'_>, counter: u32) -> Result<Stmt, Failure>
        requires { NestsStmts self.now.fuel (F.pre self.now.stmt) (F.post self.now.stmt) }
        ensures { Reads (spec.stmt nesting_limit self.now.fuel counter cursor.old) result cursor.new }
    {
        (self.stmt)(self.alloc, cursor, self.fuel, counter)
    }

    #[tactic(auto, unfolding(crate::specs::tools::StmtParser::item))]
    fn item(&self, cursor: &mut Cursor<'_>, counter: u32) -> Result<BlockItem<Stmt>, Failure>
        requires { NestsStmts self.now.fuel (F.pre self.now.stmt) (F.post self.now.stmt) }
        ensures { Reads (spec.item nesting_limit (spec.stmt nesting_limit self.now.fuel) counter cursor.old) result cursor.new }
    {
        if is_base(cursor.kind()) {
            let decl = decl(self.alloc, cursor, counter)?;
            return Ok(BlockItem::Decl(decl));
        }
        let stmt = self.inner(cursor, counter)?;
        Ok(BlockItem::Stmt(stmt))
    }

    fn more_block_items(
        &self,
        cursor: &mut Cursor<'_>,
        counter: u32,
        mut found: Items<BlockItem<Stmt>>,
    ) -> Result<Items<BlockItem<Stmt>>, Failure>
        requires { NestsStmts self.now.fuel (F.pre self.now.stmt) (F.post self.now.stmt) }
        ensures { Reads (spec.more_block_items nesting_limit (spec.stmt nesting_limit self.now.fuel) counter found cursor.old) result cursor.new }
    {
        let turns = cursor.left() + 1;
        for _turn in 0..turns {
            if !is_open(cursor.kind()) {
                return Ok(found);
            }
            let next = self.item(cursor, counter)?;
            found.push(next)?;
        }
        Err(Failure::Unexpected(cursor.left()))
    }

    #[tactic(auto, unfolding(crate::specs::tools::StmtParser::block_body))]
    fn block_body(&self, cursor: &mut Cursor<'_>, counter: u32) -> Result<Block<Stmt>, Failure>
        requires { NestsStmts self.now.fuel (F.pre self.now.stmt) (F.post self.now.stmt) }
        ensures { Reads (spec.block_body nesting_limit (spec.stmt nesting_limit self.now.fuel) counter cursor.old) result cursor.new }
    {
        let line = cursor.mark(Mark::OpenBrace)?;
        let items = self.more_block_items(cursor, counter, Items::new(self.alloc))?;
        let close = cursor.mark(Mark::CloseBrace)?;
        Ok(Block { line, items, close })
    }

    #[tactic(auto, unfolding(crate::specs::tools::StmtParser::block))]
    pub fn block(&self, cursor: &mut Cursor<'_>, counter: u32) -> Result<Block<Stmt>, Failure>
        requires { NestsStmts self.now.fuel (F.pre self.now.stmt) (F.post self.now.stmt) }
        ensures { Reads (spec.block nesting_limit (spec.stmt nesting_limit self.now.fuel) counter cursor.old) result cursor.new }
    {
        if !cursor.is_mark(Mark::OpenBrace) {
            return Err(Failure::Unexpected(cursor.left()));
        }
        if counter >= NESTING_LIMIT {
            return Err(Failure::Deep(cursor.left()));
        }
        self.block_body(cursor, counter + 1)
    }

    fn more_branches(
        &self,
        cursor: &mut Cursor<'_>,
        counter: u32,
        mut found: Items<Block<Stmt>>,
    ) -> Result<Items<Block<Stmt>>, Failure>
        requires { NestsStmts self.now.fuel (F.pre self.now.stmt) (F.post self.now.stmt) }
        ensures { Reads (spec.more_branches nesting_limit (spec.stmt nesting_limit self.now.fuel) counter found cursor.old) result cursor.new }
    {
        let turns = cursor.left() + 1;
        for _turn in 0..turns {
            if !is_open(cursor.kind()) {
                return Ok(found);
            }
            let next = self.block(cursor, counter)?;
            found.push(next)?;
        }
        Err(Failure::Unexpected(cursor.left()))
    }

    /// Behind the first part of an `if`: an `else` is taken by the nearest.
    #[tactic(auto, unfolding(crate::specs::tools::StmtParser::otherwise))]
    fn otherwise(
        &self,
        cursor: &mut Cursor<'_>,
        counter: u32,
        line: Line,
        condition: Expr,
        first: Stmt,
    ) -> Result<Stmt, Failure>
        requires { NestsStmts self.now.fuel (F.pre self.now.stmt) (F.post self.now.stmt) }
        ensures { Reads (spec.otherwise nesting_limit (spec.stmt nesting_limit self.now.fuel) counter line condition first cursor.old) result cursor.new }
    {
        let first = Boxed::new(self.alloc, first)?;
        if !cursor.is_word(Word::Else) {
            return Ok(Stmt::If {
                line,
                condition,
                first,
                second: None,
            });
        }
        cursor.word(Word::Else)?;
        let second = self.inner(cursor, counter)?;
        let second = Boxed::new(self.alloc, second)?;
        Ok(Stmt::If {
            line,
            condition,
            first,
            second: Some(second),
        })
    }

    #[tactic(auto, unfolding(crate::specs::tools::StmtParser::if_from))]
    fn if_from(&self, cursor: &mut Cursor<'_>, counter: u32) -> Result<Stmt, Failure>
        requires { NestsStmts self.now.fuel (F.pre self.now.stmt) (F.post self.now.stmt) }
        ensures { Reads (spec.if_from nesting_limit (spec.stmt nesting_limit self.now.fuel) counter cursor.old) result cursor.new }
    {
        let line = cursor.word(Word::If)?;
        let condition = condition(self.alloc, cursor, counter)?;
        let first = self.inner(cursor, counter)?;
        self.otherwise(cursor, counter, line, condition, first)
    }

    #[tactic(auto, unfolding(crate::specs::tools::StmtParser::while_from))]
    fn while_from(&self, cursor: &mut Cursor<'_>, counter: u32) -> Result<Stmt, Failure>
        requires { NestsStmts self.now.fuel (F.pre self.now.stmt) (F.post self.now.stmt) }
        ensures { Reads (spec.while_from nesting_limit (spec.stmt nesting_limit self.now.fuel) counter cursor.old) result cursor.new }
    {
        let line = cursor.word(Word::While)?;
        let condition = condition(self.alloc, cursor, counter)?;
        let body = self.inner(cursor, counter)?;
        let body = Boxed::new(self.alloc, body)?;
        Ok(Stmt::While {
            line,
            condition,
            body,
        })
    }

    /// Behind the first part of a `for`.
    #[tactic(auto, unfolding(crate::specs::tools::StmtParser::for_rest))]
    fn for_rest(
        &self,
        cursor: &mut Cursor<'_>,
        counter: u32,
        line: Line,
        start: ForStart,
    ) -> Result<Stmt, Failure>
        requires { NestsStmts self.now.fuel (F.pre self.now.stmt) (F.post self.now.stmt) }
        ensures { Reads (spec.for_rest nesting_limit (spec.stmt nesting_limit self.now.fuel) counter line start cursor.old) result cursor.new }
    {
        let condition = optional_expr(self.alloc, cursor, counter)?;
        cursor.mark(Mark::Semicolon)?;
        let step = optional_simple(self.alloc, cursor, Mark::CloseParen, counter)?;
        cursor.mark(Mark::CloseParen)?;
        let body = self.inner(cursor, counter)?;
        let body = Boxed::new(self.alloc, body)?;
        Ok(Stmt::For {
            line,
            start,
            condition,
            step,
            body,
        })
    }

    #[tactic(auto, unfolding(crate::specs::tools::StmtParser::for_from))]
    fn for_from(&self, cursor: &mut Cursor<'_>, counter: u32) -> Result<Stmt, Failure>
        requires { NestsStmts self.now.fuel (F.pre self.now.stmt) (F.post self.now.stmt) }
        ensures { Reads (spec.for_from nesting_limit (spec.stmt nesting_limit self.now.fuel) counter cursor.old) result cursor.new }
    {
        let line = cursor.word(Word::For)?;
        cursor.mark(Mark::OpenParen)?;
        let start = for_start(self.alloc, cursor, counter)?;
        self.for_rest(cursor, counter, line, start)
    }

    #[tactic(auto, unfolding(crate::specs::tools::StmtParser::par_from))]
    fn par_from(&self, cursor: &mut Cursor<'_>, counter: u32) -> Result<Stmt, Failure>
        requires { NestsStmts self.now.fuel (F.pre self.now.stmt) (F.post self.now.stmt) }
        ensures { Reads (spec.par_from nesting_limit (spec.stmt nesting_limit self.now.fuel) counter cursor.old) result cursor.new }
    {
        let line = cursor.word(Word::Par)?;
        cursor.mark(Mark::OpenBrace)?;
        let branches = self.more_branches(cursor, counter, Items::new(self.alloc))?;
        cursor.mark(Mark::CloseBrace)?;
        Ok(Stmt::Par { line, branches })
    }

    #[tactic(auto, unfolding(crate::specs::tools::StmtParser::return_from))]
    fn return_from(&self, cursor: &mut Cursor<'_>, counter: u32) -> Result<Stmt, Failure>
        requires { NestsStmts self.now.fuel (F.pre self.now.stmt) (F.post self.now.stmt) }
        ensures { Reads (spec.return_from nesting_limit (spec.stmt nesting_limit self.now.fuel) counter cursor.old) result cursor.new }
    {
        let line = cursor.word(Word::Return)?;
        let value = optional_expr(self.alloc, cursor, counter)?;
        cursor.mark(Mark::Semicolon)?;
        Ok(Stmt::Return { line, value })
    }

    #[tactic(auto, unfolding(crate::specs::tools::StmtParser::statement))]
    fn statement(&self, cursor: &mut Cursor<'_>, counter: u32) -> Result<Stmt, Failure>
        requires { NestsStmts self.now.fuel (F.pre self.now.stmt) (F.post self.now.stmt) }
        ensures { Reads (spec.statement nesting_limit (spec.stmt nesting_limit self.now.fuel) counter cursor.old) result cursor.new }
    {
        match stmt_start(cursor.kind()) {
            StmtStart::Block => {
                let block = self.block(cursor, counter)?;
                Ok(Stmt::Block(block))
            }
            StmtStart::Empty => {
                let line = cursor.mark(Mark::Semicolon)?;
                Ok(Stmt::Empty { line })
            }
            StmtStart::Break => {
                let line = cursor.word(Word::Break)?;
                cursor.mark(Mark::Semicolon)?;
                Ok(Stmt::Break { line })
            }
            StmtStart::Continue => {
                let line = cursor.word(Word::Continue)?;
                cursor.mark(Mark::Semicolon)?;
                Ok(Stmt::Continue { line })
            }
            StmtStart::Return => self.return_from(cursor, counter),
            StmtStart::If => self.if_from(cursor, counter),
            StmtStart::While => self.while_from(cursor, counter),
            StmtStart::For => self.for_from(cursor, counter),
            StmtStart::Par => self.par_from(cursor, counter),
            StmtStart::Simple => {
                let simple = simple(self.alloc, cursor, counter)?;
                cursor.mark(Mark::Semicolon)?;
                Ok(Stmt::Simple(simple))
            }
            StmtStart::Other => Err(Failure::Unexpected(cursor.left())),
        }
    }
}

/// A statement that may hold others, as deep as `fuel`.
#[tactic(auto, unfolding(crate::specs::tools::StmtParser::stmt))]
pub fn stmt(
    alloc: Global,
    cursor: &mut Cursor<'_>,
    fuel: u32,
    counter: u32,
) -> Result<Stmt, Failure>
    ensures { Reads (spec.stmt nesting_limit fuel counter cursor.old) result cursor.new }
{
    if !is_stmt(cursor.kind()) {
        return Err(Failure::Unexpected(cursor.left()));
    }
    if counter >= NESTING_LIMIT || fuel == 0 {
        return Err(Failure::Deep(cursor.left()));
    }
    let inner = Stmts {
        alloc,
        fuel: fuel - 1,
        stmt,
    };
    inner.statement(cursor, counter + 1)
}
