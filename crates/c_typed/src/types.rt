//! Types (C99 6.2.5).

ghost use Rattle.std.specs.Prelude.{◌≡◌, ◌∷◌, ◌<◌, ◌≤◌, ◌^◌, IfOk, IfErr, OnOk, Some, None, length};
ghost use Rattle.c_typed.specs.Decls.{is_scalar};
ghost use Rattle.c_typed.specs.Types.{same_base, same_lengths, same_object, is_known, is_unknown, has_value, suits, fits, accepts, is_truth, scalar, scalar_type, value_type};

use sqlite_items::Items;
use std::alloc::{AllocError, Global};

/// What a type is built of: `int`, or the struct of this number.
#[derive(Clone, Copy)]
pub enum BaseType {
    Int,
    Struct(u32),
    /// A tag of no struct, which is a fault of its own. No typed program has it.
    Unknown,
}

/// The type of what a name or a pointer stands for: arrays of `lengths`, outermost first, of pointers, `stars` deep, to
/// the base.
#[derive(Drop)]
pub struct ObjectType {
    pub base: BaseType,
    pub stars: u64,
    pub lengths: Items<u32>,
}

/// The type of an expression.
#[derive(Drop)]
pub enum ExprType {
    /// A place of this type (an lvalue, C99 6.3.2.1).
    Place(ObjectType),
    Int,
    /// The type of `NULL`, which fits every pointer.
    Null,
    /// A pointer to this type.
    Pointer(ObjectType),
    /// No value.
    Void,
    /// Of a part that has a fault of its own, and of what is built from it: it fits anything. No typed program has it.
    Unknown,
}

impl BaseType {
    fn is(self, other: BaseType) -> bool
        ensures { result ≡ same_base self other }
    {
        match (self, other) {
            (BaseType::Int, BaseType::Int) => true,
            (BaseType::Struct(left), BaseType::Struct(right)) => left == right,
            _ => false,
        }
    }
}

fn are_same(left: &[u32], right: &[u32]) -> bool
    ensures { result ≡ same_lengths left.now right.now }
{
    if left.len() != right.len() {
        return false;
    }
    for i in 0..left.len() {
        if left[i] != right[i] {
            return false;
        }
    }
    true
}

fn scalar(alloc: Global, base: BaseType, stars: u64) -> Option<ExprType>
    ensures { result ≡ scalar base stars }
{
    if matches!(base, BaseType::Unknown) {
        return Some(ExprType::Unknown);
    }
    if stars > 0 {
        return Some(ExprType::Pointer(ObjectType {
            base,
            stars: stars - 1,
            lengths: Items::new(alloc),
        }));
    }
    match base {
        BaseType::Int => Some(ExprType::Int),
        _ => None,
    }
}

impl ObjectType {
    /// Whether its base is known.
    pub fn is_known(&self) -> bool
        ensures { result ≡ is_known self.now }
    {
        !matches!(self.base, BaseType::Unknown)
    }

    /// Whether two types are one.
    pub fn is(&self, other: &ObjectType) -> bool
        ensures { result ≡ same_object self.now other.now }
    {
        self.base.is(other.base)
            && self.stars == other.stars
            && are_same(self.lengths.as_slice(), other.lengths.as_slice())
    }

    /// The same type once more.
    pub fn copy(&self, alloc: Global) -> Result<ObjectType, AllocError>
        ensures { IfOk result (λ t. t ≡ self.now) }
    {
        Ok(ObjectType {
            base: self.base,
            stars: self.stars,
            lengths: Items::from_slice(alloc, self.lengths.as_slice())?,
        })
    }

    /// The type of the value of a scalar; none of an array or a struct.
    pub fn scalar(&self, alloc: Global) -> Option<ExprType>
        ensures { result ≡ scalar_type self.now }
    {
        if self.lengths.is_empty() {
            scalar(alloc, self.base, self.stars)
        } else {
            None
        }
    }

    /// Whether it is the type of an `int` or a pointer.
    pub fn is_scalar(&self, alloc: Global) -> bool
        ensures { result ≡ is_scalar self.now }
    {
        match self.scalar(alloc) {
            None => false,
            Some(_) => true,
        }
    }

    /// Whether a value of type `v` may stand in a variable of this type.
    pub fn takes(&self, alloc: Global, v: &ExprType) -> bool
        ensures { result ≡ fits v.now self.now }
    {
        match self.scalar(alloc) {
            None => false,
            Some(wanted) => v.suits(&wanted),
        }
    }

    /// Whether a value of type `v` may be the argument for a parameter of this type: one of a struct's type has a fault of
    /// its own, and takes any value.
    pub fn accepts(&self, alloc: Global, v: &ExprType) -> bool
        ensures { result ≡ accepts v.now self.now }
    {
        match self.scalar(alloc) {
            None => v.has_value(),
            Some(wanted) => v.suits(&wanted),
        }
    }

    /// The type of the value at a place; none of a struct.
    pub fn value(&self, alloc: Global) -> Result<Option<ExprType>, AllocError>
        ensures { IfOk result (λ v. v ≡ value_type self.now) }
    {
        match self.lengths.as_slice().split_first() {
            None => Ok(scalar(alloc, self.base, self.stars)),
            Some(_) if !self.is_known() => Ok(Some(ExprType::Unknown)),
            Some((_, rest)) => Ok(Some(ExprType::Pointer(ObjectType {
                base: self.base,
                stars: self.stars,
                lengths: Items::from_slice(alloc, rest)?,
            }))),
        }
    }
}

impl ExprType {
    /// Whether a value of this type may stand where one of `wanted` is wanted.
    pub fn suits(&self, wanted: &ExprType) -> bool
        ensures { result ≡ suits self.now wanted.now }
    {
        match (self, wanted) {
            (ExprType::Void, _) => false,
            (ExprType::Int, ExprType::Int) | (ExprType::Null, ExprType::Pointer(_)) => true,
            (ExprType::Unknown, _) | (_, ExprType::Unknown) => true,
            (ExprType::Pointer(left), ExprType::Pointer(right)) => left.is(right),
            _ => false,
        }
    }

    /// Whether there is a value at all.
    pub fn has_value(&self) -> bool
        ensures { result ≡ has_value self.now }
    {
        !matches!(self, ExprType::Void)
    }

    /// Whether it is that of a part with a fault of its own.
    pub fn is_unknown(&self) -> bool
        ensures { result ≡ is_unknown self.now }
    {
        matches!(self, ExprType::Unknown)
    }

    /// Whether it is an `int` or a pointer.
    pub fn is_truth(&self) -> bool
        ensures { result ≡ is_truth self.now }
    {
        matches!(
            self,
            ExprType::Int | ExprType::Null | ExprType::Pointer(_) | ExprType::Unknown
        )
    }
}
