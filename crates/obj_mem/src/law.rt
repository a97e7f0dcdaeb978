ghost use Rattle.obj_mem.specs.Inside.{WholesAreInside, PartsAreInside, ItemsAreInside, MovedIsInside};
ghost use Rattle.obj_mem.specs.Laws.{ReadsFindWrites, FreedIsOver, LivingIsMade, NextIsNew, WrittenIsMade, BlocksAreNoFrames};

/// What a valid read answers was written, and is what was written last.
pub fn reads_find_writes()
    ensures { ReadsFindWrites }
{}

/// No valid event reads, writes, compares or frees a block that was freed.
pub fn freed_is_over()
    ensures { FreedIsOver }
{}

/// What lives was made, and so was what has words that were written; what is made next is new, and a block is no frame.
pub fn makers_are_unique()
    ensures living { LivingIsMade }
    ensures next { NextIsNew }
    ensures written { WrittenIsMade }
    ensures apart { BlocksAreNoFrames }
{}

/// Pointers stay in their objects, whatever is done to them.
pub fn pointers_stay_inside()
    ensures wholes { WholesAreInside }
    ensures parts { PartsAreInside }
    ensures items { ItemsAreInside }
    ensures moved { MovedIsInside }
{}
