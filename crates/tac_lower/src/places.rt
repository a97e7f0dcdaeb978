//! Places, and what is read and made there.

ghost use Rattle.std.specs.Prelude.{◌≡◌, IfOk};
ghost use Rattle.tac_lower.specs.declared.draft.Ends.{Ends};
ghost use Rattle.tac_lower.specs.tools.Emits.{Emits, Yields, spots, temp_in, at_spot, part_at};
ghost use Rattle.tac_lower.specs.Instrs as spec;
ghost use Rattle.tac_lower.specs.Parts.{given};
ghost use Rattle.c_typed.specs.Elaboration.{object_of};
ghost use Rattle.tac_lower.specs.Values.{deeper};

use crate::draft::Draft;
use crate::plan::{copy_of, object_of};
use crate::writer::{A_TEMP, A_TEMP_AND_DEF, A_TEMP_AND_READ, Spot, Stop, Writer};
use c_typed::{ExprType, ObjectType};
use sqlite_items::Items;
use std::alloc::{AllocError, Global};
use tac_ir::{Instr, Place};

/// The temporary that an expression left.
pub(crate) fn left(temp: Result<u32, Stop>) -> Result<Spot, Stop>
    ensures { result ≡ spots temp }
{
    match temp {
        Ok(temp) => Ok(Spot::Left(temp)),
        Err(stop) => Err(stop),
    }
}

/// The temporary with a value. (Where a value is wanted there is no place without code.)
pub(crate) fn temp(spot: Result<Spot, Stop>) -> Result<u32, Stop>
    ensures { result ≡ temp_in spot }
{
    match spot {
        Ok(Spot::Left(temp)) => Ok(temp),
        Ok(Spot::Direct(_)) => Ok(0),
        Err(stop) => Err(stop),
    }
}

/// A field of a place.
fn deepen(place: Place, field: u32) -> Result<Place, AllocError>
    ensures { IfOk result (λ p. p ≡ deeper place field) }
{
    match place {
        Place::Global { var, mut path } => {
            path.push(field)?;
            Ok(Place::Global { var, path })
        }
        Place::Local { var, mut path } => {
            path.push(field)?;
            Ok(Place::Local { var, path })
        }
    }
}

impl Writer {
    pub(crate) fn get(&mut self, line: u32, place: Place) -> Result<u32, Stop>
        ensures { (ends : Ends) → Emits (spec.get line place) ends self.old self.new result }
    {
        let instr = Instr::Get {
            to: self.next.temp,
            place,
            read: self.next.read,
        };
        let draft = Draft {
            line,
            instr,
            object: None,
        };
        self.put(draft, A_TEMP_AND_READ)
    }

    pub(crate) fn load(&mut self, line: u32, a: u32) -> Result<u32, Stop>
        ensures { (ends : Ends) → Emits (spec.load line a) ends self.old self.new result }
    {
        let instr = Instr::Load {
            to: self.next.temp,
            a,
            read: self.next.read,
        };
        let draft = Draft {
            line,
            instr,
            object: None,
        };
        self.put(draft, A_TEMP_AND_READ)
    }

    /// The value at a place.
    pub(crate) fn read(&mut self, line: u32, spot: Spot) -> Result<u32, Stop>
        ensures { (ends : Ends) → Emits (at_spot (λ p. spec.get line p) (λ a. spec.load line a) spot) ends self.old self.new result }
    {
        match spot {
            Spot::Direct(place) => self.get(line, place),
            Spot::Left(a) => self.load(line, a),
        }
    }

    fn address(&mut self, line: u32, place: Place) -> Result<u32, Stop>
        ensures { (ends : Ends) → Emits (spec.address line place) ends self.old self.new result }
    {
        let to = self.next.temp;
        self.fresh(line, Instr::Addr { to, place })
    }

    /// The pointer to a place.
    pub(crate) fn pointer_to(&mut self, line: u32, spot: Spot) -> Result<u32, Stop>
        ensures { (ends : Ends) → Emits (at_spot (λ p. spec.address line p) given spot) ends self.old self.new result }
    {
        match spot {
            Spot::Direct(place) => self.address(line, place),
            Spot::Left(a) => Ok(a),
        }
    }

    /// The pointer to field `k` of the struct at or behind `typing`.
    pub(crate) fn field(
        &mut self,
        alloc: Global,
        line: u32,
        typing: &ExprType,
        k: u32,
        a: u32,
    ) -> Result<u32, Stop>
        ensures { (ends : Ends) → Emits (spec.field line (object_of typing.now) k a) ends self.old self.new result }
    {
        let object = object_of(alloc, typing)?;
        let instr = Instr::Field {
            to: self.next.temp,
            a,
            shape: 0,
            k,
        };
        let draft = Draft {
            line,
            instr,
            object: Some(object),
        };
        self.put(draft, A_TEMP)
    }

    /// The pointer to the first item of the array at `typing`.
    pub(crate) fn decay(
        &mut self,
        alloc: Global,
        line: u32,
        typing: &ExprType,
        a: u32,
    ) -> Result<u32, Stop>
        ensures { (ends : Ends) → Emits (spec.decay line (object_of typing.now) a) ends self.old self.new result }
    {
        let object = object_of(alloc, typing)?;
        let instr = Instr::Decay {
            to: self.next.temp,
            a,
            shape: 0,
        };
        let draft = Draft {
            line,
            instr,
            object: Some(object),
        };
        self.put(draft, A_TEMP)
    }

    /// A field of a place.
    pub(crate) fn part(
        &mut self,
        alloc: Global,
        line: u32,
        typing: &ExprType,
        k: u32,
        spot: Spot,
    ) -> Result<Spot, Stop>
        ensures { (ends : Ends) → Yields (part_at line (object_of typing.now) k spot) ends self.old self.new result }
    {
        match spot {
            Spot::Direct(place) => Ok(Spot::Direct(deepen(place, k)?)),
            Spot::Left(a) => left(self.field(alloc, line, typing, k, a)),
        }
    }

    /// A block of `a` items, at a heap site.
    pub(crate) fn block(
        &mut self,
        alloc: Global,
        line: u32,
        site: u32,
        item: &ObjectType,
        a: u32,
    ) -> Result<u32, Stop>
        ensures { (ends : Ends) → Emits (spec.new line site item.now a) ends self.old self.new result }
    {
        let object = copy_of(alloc, item)?;
        let instr = Instr::New {
            to: self.next.temp,
            a,
            site,
        };
        let draft = Draft {
            line,
            instr,
            object: Some(object),
        };
        self.put(draft, A_TEMP)
    }

    pub(crate) fn call(&mut self, line: u32, fun: u32, args: Items<u32>) -> Result<u32, Stop>
        ensures { (ends : Ends) → Emits (spec.call line fun args) ends self.old self.new result }
    {
        let instr = Instr::Call {
            to: self.next.temp,
            fun,
            def: self.next.def,
            args,
        };
        let draft = Draft {
            line,
            instr,
            object: None,
        };
        self.put(draft, A_TEMP_AND_DEF)
    }
}
