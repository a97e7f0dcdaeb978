//! Parts that have no site.

ghost use Rattle.std.specs.Prelude.{◌≡◌, ◌+◌, IfOk, IfErr};
ghost use Rattle.c_typed.specs.declared.fault.TypeFault.{TypeFault};

use c_typed::{ExprType, TypeFault};
use std::alloc::{AllocError, Global};

pub fn copy_typing(alloc: Global, typing: &ExprType) -> Result<ExprType, AllocError>
    ensures { IfOk result (λ t. t ≡ typing.now) }
{
    match typing {
        ExprType::Place(object) => Ok(ExprType::Place(object.copy(alloc)?)),
        ExprType::Int => Ok(ExprType::Int),
        ExprType::Null => Ok(ExprType::Null),
        ExprType::Pointer(object) => Ok(ExprType::Pointer(object.copy(alloc)?)),
        ExprType::Void => Ok(ExprType::Void),
        ExprType::Unknown => Ok(ExprType::Unknown),
    }
}

/// The number behind this one.
pub fn after(site: u32) -> Result<u32, TypeFault>
    ensures behind { IfOk result (λ n. n ≡ site + 1) }
    ensures memory { IfErr result (λ e. e ≡ TypeFault.Memory) }
{
    match site.checked_add(1) {
        Some(next) => Ok(next),
        None => Err(TypeFault::Memory),
    }
}
