ghost use Rattle.std.specs.Prelude.{◌≡◌, ℕ, Some, true, IsTrue, IfOk, IfSome, slice_get};
ghost use Rattle.code_layout.specs.LayoutOf.{IsLayoutOf};
ghost use Rattle.tac_ir.specs.GoodForm.{GoodForm};
ghost use Rattle.tac_thread.specs.declared.flat.FlatStack.{FlatStack};
ghost use Rattle.tac_thread.specs.Flat.{flat_meaning};

use code_layout::Layout;
use dfi_base::{Memory, Name};
use obj_mem::Maker;
use std::alloc::Global;
use tac_ir::Code;
use tac_thread::{Domain, FlatStack, FlatWords};

// Words do not tell who made a frame.
const MAKER: Maker = Maker {
    thread: Name(1),
    count: 1,
};

/// The stack of a function that is called; none where it has no room.
pub fn called(c: &Code, l: &Layout, s: &FlatStack, fun: u32) -> Option<FlatStack>
    requires form { GoodForm c.now }
    requires laid { IsLayoutOf c.now l.now }
    ensures { IfSome result (λ callee. IsTrue (flat_meaning.has_frame c.now fun callee)) }
{
    if fun as usize >= c.funs.len() {
        return None;
    }
    FlatWords::enter(c, l, s, fun, MAKER)
}

/// Whether a frame of the function stands between the base and the top.
fn is_framed(c: &Code, l: &Layout, fun: u32, s: &FlatStack) -> bool
    requires form { GoodForm c.now }
    requires laid { IsLayoutOf c.now l.now }
    ensures { result ≡ true → IsTrue (flat_meaning.has_frame c.now fun s.now) }
{
    if fun as usize >= c.funs.len() {
        return false;
    }
    let room = FlatStack {
        base: s.base,
        top: s.base,
        end: s.top,
    };
    match FlatWords::enter(c, l, &room, fun, MAKER) {
        None => false,
        Some(_) => true,
    }
}

/// The shares of a stack for the branches of a fork in this function, but those without a frame.
pub fn shares(
    alloc: Global,
    c: &Code,
    l: &Layout,
    fun: u32,
    s: &FlatStack,
    n: u32,
) -> Result<Vec<FlatStack>, Memory>
    requires form { GoodForm c.now }
    requires laid { IsLayoutOf c.now l.now }
    ensures { IfOk result (λ v. (i : ℕ) (s : FlatStack) → slice_get v.items i ≡ Some s → IsTrue (flat_meaning.has_frame c.now fun s)) }
{
    let mut stacks = Vec::new(alloc);
    for i in 0..n {
        if let Some(share) = FlatWords::share(s, n, i + 1) {
            if is_framed(c, l, fun, &share) {
                stacks.push(share)?;
            }
        }
    }
    Ok(stacks)
}
