//! What stands round the parts of a function, and its places.

ghost use Rattle.std.specs.Prelude.{◌≡◌, ◌<◌, ◌+◌, ◌∷◌, IfOk, MatchResult, map, get_or, length};
ghost use Rattle.c_typed.specs.Types.{words_of};
ghost use Rattle.c_typed.specs.IsWell.{sizes_in};
ghost use Rattle.obj_mem.specs.Asked.{new_event};
ghost use Rattle.obj_mem.specs.Values.{items_of};
ghost use Rattle.src_law.specs.Acts.{a_value};
ghost use Rattle.src_law.specs.Exprs as spec;
ghost use Rattle.src_law.specs.Operators.{moved_by, needed};
ghost use Rattle.src_law.specs.Program as sites;
ghost use Rattle.src_meaning.specs.declared.heard.Pause.{Pause};
ghost use Rattle.src_meaning.specs.tools.Levels.{ReadsIn, lower, program_of, seen};

use crate::heard::{Hearing, Pause};
use crate::operators::{words_behind, words_of};
use c_typed::{
    BaseType, Expr, ExprType, Function, Global as GlobalVariable, ObjectType, Struct, Variable,
};
use dfi_base::Name;
use obj_mem::{Event, Maker, Obj, Value};
use sqlite_items::Boxed;
use std::alloc::Global;

/// A typed program, by its parts.
#[derive(Clone, Copy)]
pub struct Program<'a> {
    pub alloc: Global,
    pub structs: &'a [Struct],
    pub globals: &'a [GlobalVariable],
    pub functions: &'a [Function],
    /// The number of the function `main`.
    pub main: u32,
}

/// A function of a program in one of its frames.
#[derive(Clone, Copy)]
pub struct Level<'a> {
    pub program: Program<'a>,
    /// The number of the function.
    pub number: u32,
    pub function: &'a Function,
    /// The maker of the frame.
    pub maker: Maker,
    /// How many calls and turns may still begin in one another.
    pub fuel: u32,
}

/// Of a sum that no typed program passes; want of memory stands for it.
pub(crate) fn plus(a: u32, b: u32) -> Result<u32, Pause>
    ensures { MatchResult result (λ n. n ≡ a + b) (λ e. e ≡ Pause.Memory) }
{
    match a.checked_add(b) {
        Some(sum) => Ok(sum),
        None => Err(Pause::Memory),
    }
}

// The words of global `k`; 0 where there is none.
fn global_words(structs: &[Struct], globals: &[GlobalVariable], k: u32) -> Result<u32, Pause>
    ensures { MatchResult result (λ n. n ≡ get_or (map (λ g. words_of (sizes_in structs.now) g.object) globals.now) k 0) (λ e. e ≡ Pause.Memory) }
{
    match globals.get(k as usize) {
        Some(global) => words_of(structs, &global.object),
        None => Ok(0),
    }
}

// The words of variable `k`; 0 where there is none.
fn variable_words(structs: &[Struct], variables: &[Variable], k: u32) -> Result<u32, Pause>
    ensures { MatchResult result (λ n. n ≡ get_or (map (λ v. words_of (sizes_in structs.now) v.object) variables.now) k 0) (λ e. e ≡ Pause.Memory) }
{
    match variables.get(k as usize) {
        Some(variable) => words_of(structs, &variable.object),
        None => Ok(0),
    }
}

fn count<T>(items: &[T]) -> Result<u32, Pause>
    ensures { MatchResult result (λ n. n ≡ length items.now) (λ e. e ≡ Pause.Memory) }
{
    match u32::try_from(items.len()) {
        Ok(count) => Ok(count),
        Err(_) => Err(Pause::Memory),
    }
}

fn variables_in(functions: &[Function]) -> Result<u32, Pause>
    ensures { MatchResult result (λ n. n ≡ sites.variables_in functions.now) (λ e. e ≡ Pause.Memory) }
{
    match functions {
        [] => Ok(0),
        [first, rest @ ..] => {
            let own = count(first.variables.as_slice())?;
            plus(own, variables_in(rest)?)
        }
    }
}

impl<'a> Program<'a> {
    /// The site of the first variable of function `k`: the globals come first.
    fn first_variable(&self, k: u32) -> Result<u32, Pause>
        ensures { MatchResult result (λ n. n ≡ sites.first_variable (program_of self.now) k) (λ e. e ≡ Pause.Memory) }
    {
        let globals = count(self.globals)?;
        let before = match self.functions.get(..k as usize) {
            Some(before) => before,
            None => self.functions,
        };
        plus(globals, variables_in(before)?)
    }

    /// The first heap site, behind all variables.
    fn first_heap_site(&self) -> Result<u32, Pause>
        ensures { MatchResult result (λ n. n ≡ sites.first_heap_site (program_of self.now)) (λ e. e ≡ Pause.Memory) }
    {
        let globals = count(self.globals)?;
        plus(globals, variables_in(self.functions)?)
    }
}

// The words of the fields before this one.
#[cycle(before)]
fn words_before(structs: &[Struct], fields: &[ObjectType], k: u32) -> Result<u32, Pause>
    ensures { MatchResult result (λ n. n ≡ spec.words_before (map (words_of (sizes_in structs.now)) fields.now) k) (λ e. e ≡ Pause.Memory) }
{
    match fields {
        [] => Ok(0),
        [first, rest @ ..] => words_from(structs, first, rest, k),
    }
}

// The same, where there is a first one.
#[cycle(before)]
fn words_from(
    structs: &[Struct],
    first: &ObjectType,
    rest: &[ObjectType],
    k: u32,
) -> Result<u32, Pause>
    ensures { MatchResult result (λ n. n ≡ spec.words_before (map (words_of (sizes_in structs.now)) (first.now ∷ rest.now)) k) (λ e. e ≡ Pause.Memory) }
{
    if k == 0 {
        return Ok(0);
    }
    let words = words_of(structs, first)?;
    plus(words, words_before(structs, rest, k - 1)?)
}

fn field_words(structs: &[Struct], fields: &[ObjectType], k: u32) -> Result<u32, Pause>
    ensures { MatchResult result (λ n. n ≡ get_or (map (words_of (sizes_in structs.now)) fields.now) k 0) (λ e. e ≡ Pause.Memory) }
{
    match fields.get(k as usize) {
        Some(field) => words_of(structs, field),
        None => Ok(0),
    }
}

fn fields_of(structs: &[Struct], base: BaseType) -> &[ObjectType]
    ensures { result.now ≡ spec.fields_of structs.now base }
{
    match base {
        BaseType::Struct(k) => match structs.get(k as usize) {
            Some(found) => found.fields.as_slice(),
            None => &[],
        },
        _ => &[],
    }
}

impl<'a> Level<'a> {
    /// The same with a call or a turn less.
    pub(crate) fn lowered(&self) -> Level<'a>
        requires { 0 < self.now.fuel }
        ensures { result ≡ lower self.now }
    {
        let mut level = *self;
        level.fuel -= 1;
        level
    }

    /// The type of an expression.
    pub(crate) fn type_of<'b>(&self, e: &'b Expr) -> &'b ExprType
        ensures { result.now ≡ (spec.expr (seen self.now) e.now).typing }
    {
        &e.typing
    }

    /// The type of an operand.
    pub(crate) fn typing<'b>(&self, e: &'b Boxed<Expr>) -> &'b ExprType
        ensures { result.now ≡ (spec.expr (seen self.now) e.now).typing }
    {
        &e.get().typing
    }

    pub(crate) fn global_place(&self, v: u32) -> Result<Value, Pause>
        ensures { MatchResult result (λ p. p ≡ spec.global_place (seen self.now) v) (λ e. e ≡ Pause.Memory) }
    {
        let maker = Maker {
            thread: Name(0),
            count: 0,
        };
        let len = global_words(self.program.structs, self.program.globals, v)?;
        Ok(Obj {
            site: v,
            maker,
            len,
        }
        .whole())
    }

    pub(crate) fn local_place(&self, v: u32) -> Result<Value, Pause>
        ensures { MatchResult result (λ p. p ≡ spec.local_place (seen self.now) v) (λ e. e ≡ Pause.Memory) }
    {
        let first = self.program.first_variable(self.number)?;
        let site = plus(first, v)?;
        let len = variable_words(self.program.structs, self.function.variables.as_slice(), v)?;
        Ok(Obj {
            site,
            maker: self.maker,
            len,
        }
        .whole())
    }

    fn field_in(
        &self,
        object: &ObjectType,
        k: u32,
        pointer: Value,
        heard: &mut Hearing<'_>,
    ) -> Result<Value, Pause>
        ensures { ReadsIn self.now a_value (spec.field_of (seen self.now) object.now k pointer) heard.old result heard.new }
    {
        let whole = words_of(self.program.structs, object)?;
        let fields = fields_of(self.program.structs, object.base);
        let before = words_before(self.program.structs, fields, k)?;
        let words = field_words(self.program.structs, fields, k)?;
        if plus(before, words)? > whole {
            return Err(Pause::Memory);
        }
        self.needed(pointer.part(whole, before, words), heard)
    }

    /// A field of the struct at a place or behind a pointer of this type.
    pub(crate) fn field_of(
        &self,
        typing: &ExprType,
        k: u32,
        pointer: Value,
        heard: &mut Hearing<'_>,
    ) -> Result<Value, Pause>
        ensures { ReadsIn self.now a_value (spec.field_of (seen self.now) (spec.object_of typing.now) k pointer) heard.old result heard.new }
    {
        match typing {
            ExprType::Place(object) => self.field_in(object, k, pointer, heard),
            ExprType::Pointer(object) => self.field_in(object, k, pointer, heard),
            _ => Err(Pause::Memory),
        }
    }

    /// A pointer moved by items of what stands at a place or behind a pointer of this type.
    pub(crate) fn indexed(
        &self,
        typing: &ExprType,
        pointer: Value,
        items: Value,
        heard: &mut Hearing<'_>,
    ) -> Result<Value, Pause>
        ensures { ReadsIn self.now a_value (moved_by (spec.sizes (seen self.now)) (spec.object_of typing.now) pointer items) heard.old result heard.new }
    {
        match typing {
            ExprType::Place(object) => self.moved_by(object, pointer, items, heard),
            ExprType::Pointer(object) => self.moved_by(object, pointer, items, heard),
            _ => Err(Pause::Memory),
        }
    }

    /// The first item of the array at a place of this type.
    pub(crate) fn first_item(
        &self,
        typing: &ExprType,
        pointer: Value,
        heard: &mut Hearing<'_>,
    ) -> Result<Value, Pause>
        ensures { ReadsIn self.now a_value (needed (items_of (words_of (spec.sizes (seen self.now)) (spec.object_of typing.now)) pointer)) heard.old result heard.new }
    {
        let words = words_behind(self.program.structs, typing)?;
        self.needed(pointer.items(words), heard)
    }

    /// A block of so many items.
    pub(crate) fn makes(
        &self,
        site: u32,
        item: &ObjectType,
        count: Value,
        heard: &mut Hearing<'_>,
    ) -> Result<Value, Pause>
        ensures { ReadsIn self.now a_value (spec.made_new (new_event ((seen self.now).heap + site) (words_of (spec.sizes (seen self.now)) item.now) count)) heard.old result heard.new }
    {
        let first = self.program.first_heap_site()?;
        let site = plus(first, site)?;
        let words = words_of(self.program.structs, item)?;
        match count {
            Value::Int(count) => heard.value(Event::New { site, count, words }),
            _ => heard.last(Event::Bad),
        }
    }
}
