//! What an operator does.

ghost use Rattle.std.specs.Prelude.{◌≡◌, ◌<◌, IfOk, All};
ghost use Rattle.c_typed.specs.Types.{words_of, times, item_words, base_words};
ghost use Rattle.c_typed.specs.IsWell.{sizes_in};
ghost use Rattle.c_typed.specs.Elaboration as spec;
ghost use Rattle.tac_lower.specs.tools.Plans.{operation_of, skips_of, truth_by_int};
ghost use Rattle.tac_lower.specs.tools.Well.{IsSmall, IsSmallTyping};

use crate::structs::Structs;
use c_ast::BinaryOp;
use c_typed::{BaseType, ExprType, ObjectType};
use sqlite_items::Items;
use std::alloc::{AllocError, Global};

/// What an operator does with two values; `words` are those of the item behind a pointer.
#[derive(Clone, Copy)]
pub enum Plan {
    /// As with two ints.
    Words(BinaryOp),
    /// The left pointer up by the right number.
    MoveUp { words: u32 },
    /// The right pointer up by the left number.
    MoveRightUp { words: u32 },
    /// The left pointer down by the right number.
    MoveDown { words: u32 },
    SamePointers,
    OtherPointers,
}

/// `&&`, `||`, or an operator that evaluates both operands.
#[derive(Clone, Copy)]
pub enum Logic {
    Both,
    Either,
    Neither,
}

pub(crate) fn logic_of(op: BinaryOp) -> Logic
    ensures { skips_of result ≡ spec.skips op }
{
    match op {
        BinaryOp::And => Logic::Both,
        BinaryOp::Or => Logic::Either,
        _ => Logic::Neither,
    }
}

/// Whether a value is true where it is not 0; else it is compared with null.
pub(crate) fn is_int(typing: &ExprType) -> bool
    ensures { truth_by_int result ≡ spec.truth_of typing.now }
{
    matches!(typing, ExprType::Int)
}

/// What stands at a place or behind a pointer.
pub(crate) fn object_of(alloc: Global, typing: &ExprType) -> Result<ObjectType, AllocError>
    ensures { IfOk result (λ t. t ≡ spec.object_of typing.now) }
{
    match typing {
        ExprType::Place(object) => copy_of(alloc, object),
        ExprType::Pointer(object) => copy_of(alloc, object),
        _ => Ok(ObjectType {
            base: BaseType::Int,
            stars: 0,
            lengths: Items::new(alloc),
        }),
    }
}

/// The same type once more.
pub(crate) fn copy_of(alloc: Global, object: &ObjectType) -> Result<ObjectType, AllocError>
    ensures { IfOk result (λ t. t ≡ object.now) }
{
    Ok(ObjectType {
        base: object.base,
        stars: object.stars,
        lengths: Items::from_slice(alloc, object.lengths.as_slice())?,
    })
}

/// The items of an array of arrays of these lengths, in words.
fn times(lengths: &[u32], words: u32) -> u32
    requires some { All (λ n. 0 < n) lengths.now }
    requires small { times lengths.now words < 4294967296 }
    ensures { result ≡ times lengths.now words }
{
    match lengths {
        [] => words,
        [length, rest @ ..] => length * times(rest, words),
    }
}

fn base_words(structs: &Structs, base: BaseType) -> u32
    ensures { result ≡ base_words (sizes_in structs.now) base }
{
    match base {
        BaseType::Int => 1,
        BaseType::Struct(k) => structs.words(k),
        BaseType::Unknown => 0,
    }
}

fn item_words(structs: &Structs, base: BaseType, stars: u64) -> u32
    ensures { result ≡ item_words (sizes_in structs.now) base stars }
{
    if stars > 0 {
        1
    } else {
        base_words(structs, base)
    }
}

/// The words of a type.
fn words_of(structs: &Structs, object: &ObjectType) -> u32
    requires { IsSmall (sizes_in structs.now) object.now }
    ensures { result ≡ words_of (sizes_in structs.now) object.now }
{
    let item = item_words(structs, object.base, object.stars);
    times(object.lengths.as_slice(), item)
}

/// The words of what stands at a place or behind a pointer.
pub(crate) fn words_behind(structs: &Structs, typing: &ExprType) -> u32
    requires { IsSmallTyping (sizes_in structs.now) typing.now }
    ensures { result ≡ words_of (sizes_in structs.now) (spec.object_of typing.now) }
{
    match typing {
        ExprType::Place(object) => words_of(structs, object),
        ExprType::Pointer(object) => words_of(structs, object),
        _ => 1,
    }
}

/// `+`
pub(crate) fn sum(structs: &Structs, first: &ExprType, second: &ExprType) -> Plan
    requires first { IsSmallTyping (sizes_in structs.now) first.now }
    requires second { IsSmallTyping (sizes_in structs.now) second.now }
    ensures { operation_of result ≡ spec.sum (sizes_in structs.now) first.now second.now }
{
    match (first, second) {
        (ExprType::Pointer(object), _) => Plan::MoveUp {
            words: words_of(structs, object),
        },
        (_, ExprType::Pointer(object)) => Plan::MoveRightUp {
            words: words_of(structs, object),
        },
        _ => Plan::Words(BinaryOp::Add),
    }
}

/// `-`
pub(crate) fn difference(structs: &Structs, first: &ExprType) -> Plan
    requires { IsSmallTyping (sizes_in structs.now) first.now }
    ensures { operation_of result ≡ spec.difference (sizes_in structs.now) first.now }
{
    match first {
        ExprType::Pointer(object) => Plan::MoveDown {
            words: words_of(structs, object),
        },
        _ => Plan::Words(BinaryOp::Sub),
    }
}

/// `==` and `!=`
fn equality(op: BinaryOp, pointers: Plan, first: &ExprType) -> Plan
    ensures { operation_of result ≡ spec.equality op (operation_of pointers) first.now }
{
    match first {
        ExprType::Int => Plan::Words(op),
        _ => pointers,
    }
}

/// What an operator does with two values of these types.
pub(crate) fn plan_of(structs: &Structs, op: BinaryOp, first: &ExprType, second: &ExprType) -> Plan
    requires first { IsSmallTyping (sizes_in structs.now) first.now }
    requires second { IsSmallTyping (sizes_in structs.now) second.now }
    ensures { operation_of result ≡ spec.operation (sizes_in structs.now) op first.now second.now }
{
    match op {
        BinaryOp::Add => sum(structs, first, second),
        BinaryOp::Sub => difference(structs, first),
        BinaryOp::Equal => equality(op, Plan::SamePointers, first),
        BinaryOp::NotEqual => equality(op, Plan::OtherPointers, first),
        _ => Plan::Words(op),
    }
}
