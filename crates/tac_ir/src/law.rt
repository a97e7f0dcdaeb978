ghost use Rattle.std.specs.Prelude.{◌≡◌, ℕ, List, ℤ};
ghost use Rattle.dfi_base.specs.Lives.{own, Begins};
ghost use Rattle.tac_ir.specs.declared.run.Entry.{Entry};
ghost use Rattle.tac_ir.specs.declared.run.Journal.{Journal};
ghost use Rattle.tac_ir.specs.Module.{Module};
ghost use Rattle.tac_ir.specs.Path.{Start};
ghost use Rattle.tac_ir.specs.Threads.{threads_of};
ghost use Rattle.tac_ir.specs.CoreRun.{IsHistory, LeastRun};
ghost use Rattle.tac_ir.specs.Served.{AreServed};
ghost use Rattle.tac_ir.specs.Stopped.{AreOfLife};
ghost use Rattle.tac_ir.specs.Locality.{WordsAreLocal, BlocksAreLocal, InputIsLocal};
ghost use Rattle.tac_ir.specs.RegionLaws.{
  RegionsNest,
  NumbersTellRegions,
  NextKeepsRegion,
  TargetsKeepRegion,
  JoinKeepsRegion,
  EntryHasItsOwn,
  EndClosesOne,
  FunctionsBeginOutside,
};
ghost use Rattle.tac_ir.specs.Tables.{AreSeparate, CanRun};
ghost use Rattle.tac_ir.specs.GoodModule.{GoodModule};
ghost use Rattle.tac_ir.specs.AccessLaws.{DefinitionsTouch, ReadsTouch, StartsTouch, FactsAscend};
ghost use Rattle.tac_ir.specs.NodeLaws.{NodesAreCounted, PlacesAreNodes};
ghost use Rattle.tac_ir.specs.NumberLaws.{
  OneInstructionADefinition,
  OneInstructionARead,
  CallsMakeTheirs,
  StartsAreNoCalls,
  WordsStartWithNoCalls,
  CallsWriteLinks,
};

/// A module, an input and a budget have at most one run along the least runnable names: its entries and its end.
pub fn one_run()
    ensures { (m : Module) (input : List ℤ) (budget : ℕ) (j k : Journal) → LeastRun m input budget j → LeastRun m input budget k → j ≡ k }
{}

/// In every run one memory answers the events on words, blocks and the input, and the entries of a life are those of a path, or
/// the newest of them stopped the run.
pub fn what_a_run_keeps()
    ensures served { (m : Module) (input : List ℤ) (h : List Entry) → IsHistory m input h → AreServed m input h }
    ensures lives { (m : Module) (input : List ℤ) (h : List Entry) (n : ℕ) (s : Start) → IsHistory m input h → Begins (threads_of m) h n s
        → AreOfLife m.code s (own (threads_of m) n h) }
{}

/// The last write of a word depends on the entries of that word alone, and live blocks and the input on those of the desk alone.
pub fn memory_is_local()
    ensures words { WordsAreLocal }
    ensures blocks { BlocksAreLocal }
    ensures input { InputIsLocal }
{}

/// The regions of forks nest, and control leaves the innermost one at its `end` alone.
pub fn regions_of_forks()
    ensures nest { RegionsNest }
    ensures tell { NumbersTellRegions }
    ensures next { NextKeepsRegion }
    ensures targets { TargetsKeepRegion }
    ensures join { JoinKeepsRegion }
    ensures entries { EntryHasItsOwn }
    ensures ends { EndClosesOne }
    ensures begin { FunctionsBeginOutside }
{}

/// A definition is made at one point, and so is a read; a call's definition is written by its own link write alone.
pub fn numbers_of_code()
    ensures one_definition { OneInstructionADefinition }
    ensures one_read { OneInstructionARead }
    ensures calls { CallsMakeTheirs }
    ensures starts { StartsAreNoCalls }
    ensures words { WordsStartWithNoCalls }
    ensures writes { CallsWriteLinks }
{}

/// There are as many nodes as the limit counts, and the node of a place is one of its shape.
pub fn nodes_of_code()
    ensures counted { NodesAreCounted }
    ensures places { PlacesAreNodes }
{}

/// What the number of a definition or a read may touch is what its instruction, or its global, says; and facts stand in order.
pub fn leaves_of_numbers()
    ensures definitions { DefinitionsTouch }
    ensures reads { ReadsTouch }
    ensures starts { StartsTouch }
    ensures facts { FactsAscend }
{}

/// A good module whose classes tell the members of sets from other definitions can run.
pub fn good_modules_run()
    ensures { (m : Module) → GoodModule m → AreSeparate m → CanRun m }
{}
