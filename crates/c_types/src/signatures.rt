//! The types of functions.

ghost use Rattle.std.specs.Prelude.{◌≡◌, Ok, map};
ghost use Rattle.c_typed.specs.Types as types;
ghost use Rattle.c_types.specs.tools.Steps.{Finds};
ghost use Rattle.c_types.specs.tools.Outlines as outlines;
ghost use Rattle.c_types.specs.tools.DeclWalk as decls;
ghost use Rattle.c_types.specs.tools.OutlineWalk as walk;

use crate::gather::push_some;
use crate::outline::{Outline, Signature};
use c_ast::{Base, Brackets, Function, Item, Param, Params, ResultType};
use c_typed::{ObjectType, TypeFault};
use sqlite_items::Items;
use std::alloc::Global;

/// A parameter with brackets is a pointer.
pub fn parameter_stars(stars: u32, brackets: Brackets) -> u64
    ensures { result ≡ types.parameter_stars stars brackets }
{
    match brackets {
        Brackets::Absent => u64::from(stars),
        _ => u64::from(stars) + 1,
    }
}

impl Outline {
    pub fn parameter_type(
        &self,
        alloc: Global,
        base: &Base,
        stars: u32,
        brackets: Brackets,
    ) -> Result<ObjectType, TypeFault>
        ensures { Finds result (Ok (decls.parameter_type self.now base.now stars brackets)) }
    {
        self.pointers_to(alloc, base, parameter_stars(stars, brackets))
    }

    /// The type of a function's result; none is `void`.
    pub fn result_type(
        &self,
        alloc: Global,
        t: &ResultType,
    ) -> Result<Option<ObjectType>, TypeFault>
        ensures { Finds result (Ok (outlines.result_type self.now t.now)) }
    {
        match t {
            ResultType::Void { .. } => Ok(None),
            ResultType::Type { base, stars } => {
                Ok(Some(self.pointers_to(alloc, base, u64::from(*stars))?))
            }
        }
    }

    fn types_of(&self, alloc: Global, ps: &[Param]) -> Result<Items<ObjectType>, TypeFault>
        ensures { Finds result
            (Ok (map (λ p. decls.parameter_type self.now p.base p.stars p.brackets) ps.now)) }
    {
        let mut types = Items::new(alloc);
        for p in ps {
            types.push(self.parameter_type(alloc, &p.base, p.stars, p.brackets)?)?;
        }
        Ok(types)
    }

    fn parameter_types(&self, alloc: Global, ps: &Params) -> Result<Items<ObjectType>, TypeFault>
        ensures { Finds result (Ok (walk.parameter_types self.now ps.now)) }
    {
        match ps {
            Params::List(ps) => self.types_of(alloc, ps.as_slice()),
            _ => Ok(Items::new(alloc)),
        }
    }

    fn signature(&self, alloc: Global, f: &Function) -> Result<Signature, TypeFault>
        ensures { Finds result (Ok (walk.signature self.now f.now)) }
    {
        Ok(Signature {
            name: f.name.name,
            result: self.result_type(alloc, &f.result)?,
            parameters: self.parameter_types(alloc, &f.params)?,
        })
    }

    fn signature_of(&self, alloc: Global, item: &Item) -> Result<Option<Signature>, TypeFault>
        ensures { Finds result (Ok (walk.signature_of self.now item.now)) }
    {
        match item {
            Item::Function(f) => Ok(Some(self.signature(alloc, f)?)),
            _ => Ok(None),
        }
    }

    /// The functions, in the order of the text.
    pub fn signatures(&self, alloc: Global, items: &[Item]) -> Result<Items<Signature>, TypeFault>
        ensures { Finds result (Ok (walk.signatures self.now items.now)) }
    {
        let mut signatures = Items::new(alloc);
        for item in items {
            let signature = self.signature_of(alloc, item)?;
            push_some(&mut signatures, signature)?;
        }
        Ok(signatures)
    }
}
