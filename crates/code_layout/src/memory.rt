ghost use Rattle.std.specs.Prelude.{◌≡◌};
ghost use Rattle.tac_ir.specs.Layout.{globals_from, heap_from, stack_from, memory_words};

use dfi_base::memory_map::{GLOBALS_FROM, HEAP_FROM};
use tac_ir::Size;

/// The first word of the globals.
pub fn globals_from() -> u32
    ensures { result ≡ globals_from }
{
    GLOBALS_FROM
}

/// The first word of the heap.
pub fn heap_from() -> u32
    ensures { result ≡ heap_from }
{
    HEAP_FROM
}

/// The first word of the stacks, which is the first behind the heap.
pub fn stack_from(size: Size) -> u32
    ensures { result ≡ stack_from size }
{
    size.stack_from()
}

/// The words of a memory.
pub fn memory_words(size: Size) -> u32
    ensures { result ≡ memory_words size }
{
    size.memory_words()
}
