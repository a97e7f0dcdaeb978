//! Statements.

ghost use Rattle.std.specs.Prelude.{◌≡◌, ◌++◌, ◌∷◌, [], OnOk};
ghost use Rattle.std.specs.List.{flat_map};
ghost use Rattle.c_lex.specs.declared.token.Mark.{Mark};
ghost use Rattle.c_lex.specs.declared.token.Word.{Word};
ghost use Rattle.c_print.specs.TreeTokens as spec;

use crate::tokens::Tokens;
use c_ast::{Block, BlockItem, Expr, ForStart, Simple, Stmt};
use c_lex::{Mark, Word};
use dfi_base::Memory;

impl Tokens {
    fn value_if_any(&mut self, value: &Option<Expr>) -> Result<(), Memory>
        ensures { OnOk result (self.new ≡ self.old ++ spec.if_some spec.of_whole value.now) }
    {
        match value {
            None => Ok(()),
            Some(value) => self.bare(value),
        }
    }

    fn start(&mut self, start: &ForStart) -> Result<(), Memory>
        ensures { OnOk result (self.new ≡ self.old ++ spec.of_start start.now) }
    {
        match start {
            ForStart::Decl(decl) => self.decl(decl),
            ForStart::Simple(simple) => {
                self.simple_if_any(simple)?;
                self.mark(Mark::Semicolon)
            }
        }
    }

    /// A word and a whole expression in parentheses.
    fn head(&mut self, word: Word, condition: &Expr) -> Result<(), Memory>
        ensures { OnOk result (self.new ≡ self.old ++ spec.in_head word (spec.of_whole condition.now)) }
    {
        self.word(word)?;
        self.mark(Mark::OpenParen)?;
        self.bare(condition)?;
        self.mark(Mark::CloseParen)
    }

    fn for_head(
        &mut self,
        start: &ForStart,
        condition: &Option<Expr>,
        step: &Option<Simple>,
    ) -> Result<(), Memory>
        ensures { OnOk result (self.new ≡ self.old ++ spec.for_head start.now condition.now step.now) }
    {
        self.word(Word::For)?;
        self.mark(Mark::OpenParen)?;
        self.start(start)?;
        self.value_if_any(condition)?;
        self.mark(Mark::Semicolon)?;
        self.simple_if_any(step)?;
        self.mark(Mark::CloseParen)
    }

    fn word_alone(&mut self, word: Word) -> Result<(), Memory>
        ensures { OnOk result (self.new ≡ self.old ++ spec.word word ∷ spec.mark Mark.Semicolon ∷ []) }
    {
        self.word(word)?;
        self.mark(Mark::Semicolon)
    }

    fn return_stmt(&mut self, value: &Option<Expr>) -> Result<(), Memory>
        ensures { OnOk result (self.new ≡ self.old ++ spec.word Word.Return ∷ spec.ended (spec.if_some spec.of_whole value.now)) }
    {
        self.word(Word::Return)?;
        self.value_if_any(value)?;
        self.mark(Mark::Semicolon)
    }

    #[tactic(auto, using(crate::proofs::StmtForms::forms, std::proofs::lemmas::Grind::common_steps))]
    #[cycle(stmt)]
    pub fn stmt(&mut self, stmt: &Stmt) -> Result<(), Memory>
        ensures { OnOk result (self.new ≡ self.old ++ spec.of_stmt stmt.now) }
    {
        match stmt {
            Stmt::Block(block) => self.block(block),
            Stmt::Empty { .. } => self.mark(Mark::Semicolon),
            Stmt::Simple(simple) => {
                self.simple(simple)?;
                self.mark(Mark::Semicolon)
            }
            Stmt::Return { value, .. } => self.return_stmt(value),
            Stmt::Break { .. } => self.word_alone(Word::Break),
            Stmt::Continue { .. } => self.word_alone(Word::Continue),
            Stmt::If {
                condition,
                first,
                second,
                ..
            } => {
                self.head(Word::If, condition)?;
                self.stmt(first.get())?;
                match second {
                    None => Ok(()),
                    Some(second) => {
                        self.word(Word::Else)?;
                        self.stmt(second.get())
                    }
                }
            }
            Stmt::While {
                condition,
                body,
                ..
            } => {
                self.head(Word::While, condition)?;
                self.stmt(body.get())
            }
            Stmt::For {
                start,
                condition,
                step,
                body,
                ..
            } => {
                self.for_head(start, condition, step)?;
                self.stmt(body.get())
            }
            Stmt::Par { branches, .. } => {
                self.word(Word::Par)?;
                self.mark(Mark::OpenBrace)?;
                self.blocks(branches.as_slice())?;
                self.mark(Mark::CloseBrace)
            }
        }
    }

    #[cycle(stmt)]
    pub fn block(&mut self, block: &Block<Stmt>) -> Result<(), Memory>
        ensures { OnOk result (self.new ≡ self.old ++ spec.of_block block.now) }
    {
        self.mark(Mark::OpenBrace)?;
        self.block_items(block.items.as_slice())?;
        self.mark(Mark::CloseBrace)
    }

    #[cycle(stmt)]
    fn block_item(&mut self, item: &BlockItem<Stmt>) -> Result<(), Memory>
        ensures { OnOk result (self.new ≡ self.old ++ spec.of_block_item spec.of_stmt item.now) }
    {
        match item {
            BlockItem::Decl(decl) => self.decl(decl),
            BlockItem::Stmt(stmt) => self.stmt(stmt),
        }
    }

    #[cycle(stmt)]
    fn block_items(&mut self, items: &[BlockItem<Stmt>]) -> Result<(), Memory>
        ensures { OnOk result (self.new ≡ self.old ++ flat_map (spec.of_block_item spec.of_stmt) items.now) }
    {
        for item in items {
            self.block_item(item)?;
        }
        Ok(())
    }

    #[cycle(stmt)]
    fn blocks(&mut self, blocks: &[Block<Stmt>]) -> Result<(), Memory>
        ensures { OnOk result (self.new ≡ self.old ++ flat_map spec.of_block blocks.now) }
    {
        for block in blocks {
            self.block(block)?;
        }
        Ok(())
    }
}
