//! Where the parts of a memory begin, in words.

ghost use Rattle.std.specs.Prelude.{◌≡◌, ◌+◌};
ghost use Rattle.dfi_base.specs.Limits.{global_limit, type_limit};
ghost use Rattle.dfi_base.specs.MemoryMap.{
  globals_from,
  heap_from,
  small_stack_from,
  small_memory_words,
  large_stack_from,
  large_memory_words,
};

pub const GLOBALS_FROM: u32 = 16;

pub const HEAP_FROM: u32 = 8_192;

pub const SMALL_STACK_FROM: u32 = 32_768;

pub const SMALL_MEMORY_WORDS: u32 = 65_536;

pub const LARGE_STACK_FROM: u32 = 524_288;

pub const LARGE_MEMORY_WORDS: u32 = 1_048_576;

/// The parts begin where the definitions say. The globals just fit before the heap, and the largest type just fits into the small heap.
pub fn parts_begin_there()
    ensures globals { GLOBALS_FROM ≡ globals_from }
    ensures heap { HEAP_FROM ≡ heap_from }
    ensures small { (SMALL_STACK_FROM ≡ small_stack_from) × (SMALL_MEMORY_WORDS ≡ small_memory_words) }
    ensures large { (LARGE_STACK_FROM ≡ large_stack_from) × (LARGE_MEMORY_WORDS ≡ large_memory_words) }
    ensures globals_fit { globals_from + global_limit ≡ heap_from }
    ensures types_fit { heap_from + type_limit ≡ small_stack_from }
{}
