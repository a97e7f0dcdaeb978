ghost use Rattle.std.specs.Prelude.{◌≡◌, ℕ, suc, Some, slice_get, Contains};
ghost use Rattle.tac_ir.specs.declared.code.Code.{Code};
ghost use Rattle.tac_ir.specs.declared.code.Fun.{Fun};
ghost use Rattle.tac_ir.specs.Regions.{Region, regions_in, IsInside, IsInnermost};
ghost use Rattle.tac_ir.specs.Path.{region_in};
ghost use Rattle.tac_ir.specs.GoodForm.{GoodForm};

/// The innermost region in which jumps stay is the one by which returns go on: it is told by one more than its entry, and none by 0.
pub fn one_innermost_region()
    ensures region { (c : Code) (f : ℕ) (fun : Fun) (at : ℕ) (r : Region) → GoodForm c → slice_get c.funs f ≡ Some fun → IsInnermost fun.code r at → region_in fun.code at ≡ suc r.entry }
    ensures none { (c : Code) (f : ℕ) (fun : Fun) (at : ℕ) → GoodForm c → slice_get c.funs f ≡ Some fun → ((r : Region) → Contains (regions_in fun.code) r → IsInside r at → ⊥) → region_in fun.code at ≡ 0 }
{}
