//! What needs shapes: globals, variables, heap sites and instructions.

ghost use Rattle.std.specs.Prelude.{◌≡◌, ◌++◌, map, IfOk, OnOk};
ghost use Rattle.tac_lower.specs.CodeOf as spec;
ghost use Rattle.tac_lower.specs.Shapes.{shapes_from};
ghost use Rattle.tac_lower.specs.tools.Interning.{AreFew, IsKept, Interned, is_new, with_shape};

use crate::draft::Draft;
use crate::finish::reversed;
use crate::structs::Structs;
use crate::types::Interner;
use c_typed::{Function, Global, Variable};
use dfi_base::Memory;
use sqlite_items::Items;
use tac_ir::{Instr, Lined, Site};

fn is_new(instr: &Instr) -> bool
    ensures { result ≡ is_new instr.now }
{
    matches!(instr, Instr::New { .. })
}

/// The instruction, with the number of the shape that it names.
fn with_shape(instr: Instr, shape: u32) -> Instr
    ensures { result ≡ with_shape shape instr }
{
    match instr {
        Instr::Field { to, a, k, .. } => Instr::Field { to, a, shape, k },
        Instr::Decay { to, a, .. } => Instr::Decay { to, a, shape },
        other => other,
    }
}

impl Interner {
    pub(crate) fn globals(
        &mut self,
        structs: &Structs,
        globals: &[Global],
    ) -> Result<Items<tac_ir::Global>, Memory>
        requires kept { IsKept structs.now self.old.known.items self.old.shapes }
        requires few { AreFew (shapes_from structs.now self.old.shapes (map (λ g. g.object) globals.now)) }
        ensures { IfOk result (λ made. Interned structs.now (map (λ g. g.object) globals.now) (λ shape. map (spec.global_of shape) globals.now) self.old self.new made) }
    {
        let mut made = Items::new(structs.alloc());
        for global in globals {
            let shape = self.number(structs, &global.object)?;
            made.push(tac_ir::Global {
                shape,
                start: global.start,
                line: global.line.0,
            })?;
        }
        Ok(made)
    }

    fn variables(&mut self, structs: &Structs, variables: &[Variable]) -> Result<Items<u32>, Memory>
        requires kept { IsKept structs.now self.old.known.items self.old.shapes }
        requires few { AreFew (shapes_from structs.now self.old.shapes (map (λ v. v.object) variables.now)) }
        ensures { IfOk result (λ made. Interned structs.now (map (λ v. v.object) variables.now) (λ shape. map (λ v. shape v.object) variables.now) self.old self.new made) }
    {
        let mut made = Items::new(structs.alloc());
        for variable in variables {
            let shape = self.number(structs, &variable.object)?;
            made.push(shape)?;
        }
        Ok(made)
    }

    /// The shapes of the variables of each function.
    pub(crate) fn frames(
        &mut self,
        structs: &Structs,
        functions: &[Function],
    ) -> Result<Items<Items<u32>>, Memory>
        requires kept { IsKept structs.now self.old.known.items self.old.shapes }
        requires few { AreFew (shapes_from structs.now self.old.shapes (spec.variables_in functions.now)) }
        ensures { IfOk result (λ made. Interned structs.now (spec.variables_in functions.now) (λ shape. map (λ f. map (λ v. shape v.object) f.variables) functions.now) self.old self.new made) }
    {
        let mut made = Items::new(structs.alloc());
        for function in functions {
            let frame = self.variables(structs, function.variables.as_slice())?;
            made.push(frame)?;
        }
        Ok(made)
    }

    /// Adds the heap site of a draft that has one.
    fn site(
        &mut self,
        structs: &Structs,
        draft: &Draft,
        sites: &mut Items<Site>,
    ) -> Result<(), Memory>
        requires kept { IsKept structs.now self.old.known.items self.old.shapes }
        requires few { AreFew (shapes_from structs.now self.old.shapes (map (λ i. i.object) (spec.site_by draft.now.line draft.now.object draft.now.instr))) }
        ensures { OnOk result (Interned structs.now (map (λ i. i.object) (spec.site_by draft.now.line draft.now.object draft.now.instr))
            (λ shape. sites.old ++ map (spec.site_of shape) (spec.site_by draft.now.line draft.now.object draft.now.instr)) self.old self.new sites.new) }
    {
        if !is_new(&draft.instr) {
            return Ok(());
        }
        if let Some(object) = &draft.object {
            let shape = self.number(structs, object)?;
            sites.push(Site {
                shape,
                line: draft.line,
            })?;
        }
        Ok(())
    }

    fn sites_in(
        &mut self,
        structs: &Structs,
        drafts: &[Draft],
        sites: &mut Items<Site>,
    ) -> Result<(), Memory>
        requires kept { IsKept structs.now self.old.known.items self.old.shapes }
        requires few { AreFew (shapes_from structs.now self.old.shapes (map (λ i. i.object) (spec.sites_in drafts.now))) }
        ensures { OnOk result (Interned structs.now (map (λ i. i.object) (spec.sites_in drafts.now))
            (λ shape. sites.old ++ map (spec.site_of shape) (spec.sites_in drafts.now)) self.old self.new sites.new) }
    {
        for draft in drafts {
            self.site(structs, draft, sites)?;
        }
        Ok(())
    }

    /// The heap sites of all functions.
    pub(crate) fn sites(
        &mut self,
        structs: &Structs,
        drafts: &[Items<Draft>],
    ) -> Result<Items<Site>, Memory>
        requires kept { IsKept structs.now self.old.known.items self.old.shapes }
        requires few { AreFew (shapes_from structs.now self.old.shapes (map (λ i. i.object) (spec.sites_in (spec.all_of drafts.now)))) }
        ensures { IfOk result (λ made. Interned structs.now (map (λ i. i.object) (spec.sites_in (spec.all_of drafts.now)))
            (λ shape. map (spec.site_of shape) (spec.sites_in (spec.all_of drafts.now))) self.old self.new made) }
    {
        let mut sites = Items::new(structs.alloc());
        for drafts in drafts {
            self.sites_in(structs, drafts.as_slice(), &mut sites)?;
        }
        Ok(sites)
    }

    /// The line of a draft, with its shape's number.
    fn line(&mut self, structs: &Structs, draft: Draft) -> Result<Lined, Memory>
        requires kept { IsKept structs.now self.old.known.items self.old.shapes }
        requires few { AreFew (shapes_from structs.now self.old.shapes (map (λ i. i.object) (spec.need_by draft.line draft.object draft.instr))) }
        ensures { IfOk result (λ made. Interned structs.now (map (λ i. i.object) (spec.need_by draft.line draft.object draft.instr)) (λ shape. spec.finished shape draft) self.old self.new made) }
    {
        let Draft {
            line,
            instr,
            object,
        } = draft;
        match object {
            Some(object) if !is_new(&instr) => {
                let shape = self.number(structs, &object)?;
                let instr = with_shape(instr, shape);
                Ok(Lined { line, instr })
            }
            _ => Ok(Lined { line, instr }),
        }
    }

    fn lines_in(&mut self, structs: &Structs, drafts: Items<Draft>) -> Result<Items<Lined>, Memory>
        requires kept { IsKept structs.now self.old.known.items self.old.shapes }
        requires few { AreFew (shapes_from structs.now self.old.shapes (map (λ i. i.object) (spec.needs_in drafts))) }
        ensures { IfOk result (λ made. Interned structs.now (map (λ i. i.object) (spec.needs_in drafts)) (λ shape. map (spec.finished shape) drafts) self.old self.new made) }
    {
        let mut left = reversed(structs.alloc(), drafts)?;
        let mut lines = Items::new(structs.alloc());
        while let Some(draft) = left.pop() {
            lines.push(self.line(structs, draft)?)?;
        }
        Ok(lines)
    }

    /// The lines of each function.
    pub(crate) fn lines(
        &mut self,
        structs: &Structs,
        drafts: Items<Items<Draft>>,
    ) -> Result<Items<Items<Lined>>, Memory>
        requires kept { IsKept structs.now self.old.known.items self.old.shapes }
        requires few { AreFew (shapes_from structs.now self.old.shapes (map (λ i. i.object) (spec.needs_in (spec.all_of drafts)))) }
        ensures { IfOk result (λ made. Interned structs.now (map (λ i. i.object) (spec.needs_in (spec.all_of drafts))) (λ shape. map (λ ds. map (spec.finished shape) ds) drafts) self.old self.new made) }
    {
        let mut left = reversed(structs.alloc(), drafts)?;
        let mut lines = Items::new(structs.alloc());
        while let Some(drafts) = left.pop() {
            lines.push(self.lines_in(structs, drafts)?)?;
        }
        Ok(lines)
    }
}
