//! Whole programs.

ghost use Rattle.std.specs.Prelude.{◌≡◌, ◌++◌, OnOk};
ghost use Rattle.std.specs.List.{flat_map};
ghost use Rattle.c_print.specs.TreeTokens as spec;

use crate::tokens::Tokens;
use c_ast::{Field, Function, Item, Proto, StructDef};
use c_lex::{Mark, Word};
use dfi_base::Memory;

impl Tokens {
    fn field_line(&mut self, field: &Field) -> Result<(), Memory>
        ensures { OnOk result (self.new ≡ self.old ++ spec.of_field field.now) }
    {
        self.base(field.base)?;
        self.declarators(field.items.as_slice())?;
        self.mark(Mark::Semicolon)
    }

    fn field_lines(&mut self, fields: &[Field]) -> Result<(), Memory>
        ensures { OnOk result (self.new ≡ self.old ++ flat_map spec.of_field fields.now) }
    {
        for field in fields {
            self.field_line(field)?;
        }
        Ok(())
    }

    fn struct_def(&mut self, def: &StructDef) -> Result<(), Memory>
        ensures { OnOk result (self.new ≡ self.old ++ spec.of_struct def.now) }
    {
        self.word(Word::Struct)?;
        self.name(def.tag)?;
        self.mark(Mark::OpenBrace)?;
        self.field_lines(def.fields.as_slice())?;
        self.mark(Mark::CloseBrace)?;
        self.mark(Mark::Semicolon)
    }

    fn function(&mut self, function: &Function) -> Result<(), Memory>
        ensures { OnOk result (self.new ≡ self.old ++ spec.of_function function.now) }
    {
        self.result_type(function.result)?;
        self.name(function.name)?;
        self.mark(Mark::OpenParen)?;
        self.params(&function.params)?;
        self.mark(Mark::CloseParen)?;
        self.block(&function.body)
    }

    fn proto(&mut self, proto: &Proto) -> Result<(), Memory>
        ensures { OnOk result (self.new ≡ self.old ++ spec.of_proto proto.now) }
    {
        self.result_type(proto.result)?;
        self.name(proto.name)?;
        self.mark(Mark::OpenParen)?;
        self.proto_params(&proto.params)?;
        self.mark(Mark::CloseParen)?;
        self.mark(Mark::Semicolon)
    }

    fn item(&mut self, item: &Item) -> Result<(), Memory>
        ensures { OnOk result (self.new ≡ self.old ++ spec.of_item item.now) }
    {
        match item {
            Item::Struct(def) => self.struct_def(def),
            Item::Decl(decl) => self.decl(decl),
            Item::Function(function) => self.function(function),
            Item::Proto(proto) => self.proto(proto),
        }
    }

    pub fn items(&mut self, items: &[Item]) -> Result<(), Memory>
        ensures { OnOk result (self.new ≡ self.old ++ spec.tokens_of items.now) }
    {
        for item in items {
            self.item(item)?;
        }
        Ok(())
    }
}
