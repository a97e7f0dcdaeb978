//! What a name means.

ghost use Rattle.std.specs.Prelude.{◌≡◌};
ghost use Rattle.std.specs.Option.{option_copied};
ghost use Rattle.c_types.specs.tools.Steps.{Finds};
ghost use Rattle.c_types.specs.tools.Outlines as outlines;
ghost use Rattle.c_types.specs.tools.ExprWalk.{name_walk};

use crate::known::Known;
use crate::nodes;
use crate::outline::{Outline, Spelling};
use crate::scopes::Binding;
use c_ast::Ident;
use c_typed::{Expr, TypeFault};
use std::alloc::Global;

impl Known {
    /// The newest binding of a name.
    pub fn find(&self, name: u32) -> Option<&Binding>
        ensures { option_copied result ≡ outlines.bound self.now name }
    {
        let at = self.scopes.newest.get(name)?;
        self.scopes.bindings.get(at as usize)
    }
}

impl Spelling {
    pub fn is_main(self) -> bool
        ensures { result ≡ outlines.is_main self }
    {
        matches!(self, Spelling::Main)
    }

    pub fn is_builtin(self) -> bool
        ensures { result ≡ outlines.is_builtin self }
    {
        match self {
            Spelling::Other | Spelling::Main => false,
            _ => true,
        }
    }
}

impl Outline {
    #[tactic(auto, using(crate::proofs::TableLaws::spelled_past))]
    pub fn spelling(&self, name: u32) -> Spelling
        ensures { result ≡ outlines.spelled self.now name }
    {
        match self.spellings.get(name as usize) {
            Some(spelling) => *spelling,
            None => Spelling::Other,
        }
    }
}

/// A name as an expression: a variable. A function is none.
pub fn name(alloc: Global, outline: &Outline, known: &Known, i: Ident) -> Result<Expr, TypeFault>
    ensures { Finds result (name_walk outline.now known.now i) }
{
    if let Some(binding) = known.find(i.name) {
        return Ok(nodes::variable(alloc, binding)?);
    }
    match (outline.spelling(i.name), outline.numbers.get(i.name)) {
        (Spelling::Other | Spelling::Main, None) => Err(TypeFault::Unknown { line: i.line }),
        _ => Err(TypeFault::Mismatch { line: i.line }),
    }
}
