//! Parameters.

ghost use Rattle.std.specs.Prelude.{◌≡◌, ◌++◌, ◌∷◌, [], OnOk};
ghost use Rattle.std.specs.List.{flat_map};
ghost use Rattle.c_lex.specs.declared.token.Mark.{Mark};
ghost use Rattle.c_print.specs.TreeTokens as spec;

use crate::tokens::Tokens;
use c_ast::{Ident, Param, Params, ProtoParam, ProtoParams};
use c_lex::{Mark, Word};
use dfi_base::Memory;

impl Tokens {
    fn param(&mut self, param: Param) -> Result<(), Memory>
        ensures { OnOk result (self.new ≡ self.old ++ spec.of_param param) }
    {
        self.base(param.base)?;
        self.stars(param.stars)?;
        self.name(param.name)?;
        self.brackets(param.brackets)
    }

    fn more_params(&mut self, params: &[Param]) -> Result<(), Memory>
        ensures { OnOk result (self.new ≡ self.old ++ flat_map (λ p. spec.mark Mark.Comma ∷ spec.of_param p) params.now) }
    {
        for param in params {
            self.mark(Mark::Comma)?;
            self.param(*param)?;
        }
        Ok(())
    }

    fn param_list(&mut self, params: &[Param]) -> Result<(), Memory>
        ensures { OnOk result (self.new ≡ self.old ++ spec.with_commas spec.of_param params.now) }
    {
        let [first, others @ ..] = params else {
            return Ok(());
        };
        self.param(*first)?;
        self.more_params(others)
    }

    pub fn params(&mut self, params: &Params) -> Result<(), Memory>
        ensures { OnOk result (self.new ≡ self.old ++ spec.of_params params.now) }
    {
        match params {
            Params::Empty => Ok(()),
            Params::Void { .. } => self.word(Word::Void),
            Params::List(params) => self.param_list(params.as_slice()),
        }
    }

    fn name_if_any(&mut self, name: Option<Ident>) -> Result<(), Memory>
        ensures { OnOk result (self.new ≡ self.old ++ spec.if_some (λ i. spec.name i ∷ []) name) }
    {
        match name {
            None => Ok(()),
            Some(name) => self.name(name),
        }
    }

    fn proto_param(&mut self, param: ProtoParam) -> Result<(), Memory>
        ensures { OnOk result (self.new ≡ self.old ++ spec.of_proto_param param) }
    {
        self.base(param.base)?;
        self.stars(param.stars)?;
        self.name_if_any(param.name)?;
        self.brackets(param.brackets)
    }

    fn more_proto_params(&mut self, params: &[ProtoParam]) -> Result<(), Memory>
        ensures { OnOk result (self.new ≡ self.old ++ flat_map (λ p. spec.mark Mark.Comma ∷ spec.of_proto_param p) params.now) }
    {
        for param in params {
            self.mark(Mark::Comma)?;
            self.proto_param(*param)?;
        }
        Ok(())
    }

    fn proto_param_list(&mut self, params: &[ProtoParam]) -> Result<(), Memory>
        ensures { OnOk result (self.new ≡ self.old ++ spec.with_commas spec.of_proto_param params.now) }
    {
        let [first, others @ ..] = params else {
            return Ok(());
        };
        self.proto_param(*first)?;
        self.more_proto_params(others)
    }

    pub fn proto_params(&mut self, params: &ProtoParams) -> Result<(), Memory>
        ensures { OnOk result (self.new ≡ self.old ++ spec.of_proto_params params.now) }
    {
        match params {
            ProtoParams::Empty => Ok(()),
            ProtoParams::Void { .. } => self.word(Word::Void),
            ProtoParams::List(params) => self.proto_param_list(params.as_slice()),
        }
    }
}
