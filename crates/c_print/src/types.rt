//! Types and declarators.

ghost use Rattle.std.specs.Prelude.{◌≡◌, ◌++◌, ◌∷◌, OnOk};
ghost use Rattle.std.specs.List.{flat_map};
ghost use Rattle.c_lex.specs.declared.token.Mark.{Mark};
ghost use Rattle.c_print.specs.TreeTokens as spec;

use crate::tokens::Tokens;
use c_ast::{Base, Brackets, Declarator, ResultType, TypeName};
use c_lex::{Mark, Word};
use dfi_base::Memory;

impl Tokens {
    pub fn base(&mut self, base: Base) -> Result<(), Memory>
        ensures { OnOk result (self.new ≡ self.old ++ spec.of_base base) }
    {
        match base {
            Base::Int { .. } => self.word(Word::Int),
            Base::Struct { tag, .. } => {
                self.word(Word::Struct)?;
                self.name(tag)
            }
        }
    }

    pub fn stars(&mut self, stars: u32) -> Result<(), Memory>
        ensures { OnOk result (self.new ≡ self.old ++ spec.of_stars stars) }
    {
        for _star in 0..stars {
            self.mark(Mark::Star)?;
        }
        Ok(())
    }

    pub fn type_name(&mut self, name: TypeName) -> Result<(), Memory>
        ensures { OnOk result (self.new ≡ self.old ++ spec.of_type name) }
    {
        self.base(name.base)?;
        self.stars(name.stars)
    }

    pub fn result_type(&mut self, result_type: ResultType) -> Result<(), Memory>
        ensures { OnOk result (self.new ≡ self.old ++ spec.of_result result_type) }
    {
        match result_type {
            ResultType::Type { base, stars } => {
                self.base(base)?;
                self.stars(stars)
            }
            ResultType::Void { .. } => self.word(Word::Void),
        }
    }

    fn length(&mut self, length: i32) -> Result<(), Memory>
        ensures { OnOk result (self.new ≡ self.old ++ spec.of_length length) }
    {
        self.mark(Mark::OpenBracket)?;
        self.number(length)?;
        self.mark(Mark::CloseBracket)
    }

    fn lengths(&mut self, lengths: &[i32]) -> Result<(), Memory>
        ensures { OnOk result (self.new ≡ self.old ++ flat_map spec.of_length lengths.now) }
    {
        for length in lengths {
            self.length(*length)?;
        }
        Ok(())
    }

    pub fn brackets(&mut self, brackets: Brackets) -> Result<(), Memory>
        ensures { OnOk result (self.new ≡ self.old ++ spec.of_brackets brackets) }
    {
        match brackets {
            Brackets::Absent => Ok(()),
            Brackets::Empty => {
                self.mark(Mark::OpenBracket)?;
                self.mark(Mark::CloseBracket)
            }
            Brackets::Length(length) => self.length(length),
        }
    }

    pub fn declarator(&mut self, declarator: &Declarator) -> Result<(), Memory>
        ensures { OnOk result (self.new ≡ self.old ++ spec.of_declarator declarator.now) }
    {
        self.stars(declarator.stars)?;
        self.name(declarator.name)?;
        self.lengths(declarator.lengths.as_slice())
    }

    fn more_declarators(&mut self, declarators: &[Declarator]) -> Result<(), Memory>
        ensures { OnOk result (self.new ≡ self.old ++ flat_map (λ d. spec.mark Mark.Comma ∷ spec.of_declarator d) declarators.now) }
    {
        for declarator in declarators {
            self.mark(Mark::Comma)?;
            self.declarator(declarator)?;
        }
        Ok(())
    }

    pub fn declarators(&mut self, declarators: &[Declarator]) -> Result<(), Memory>
        ensures { OnOk result (self.new ≡ self.old ++ spec.with_commas spec.of_declarator declarators.now) }
    {
        let [first, others @ ..] = declarators else {
            return Ok(());
        };
        self.declarator(first)?;
        self.more_declarators(others)
    }
}
