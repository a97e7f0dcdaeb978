ghost use Rattle.std.specs.Prelude.{false, nat_le, ◌≡◌, ℕ, ◌/◌, ◌≤◌, Some, List, [], ◌∷◌};
ghost use Rattle.tac_ir.specs.declared.code.Code.{Code};
ghost use Rattle.tac_ir.specs.declared.run.Entry.{Entry};
ghost use Rattle.tac_ir.specs.declared.run.Stop.{Stop};
ghost use Rattle.tac_ir.specs.Layout.{frame_words};
ghost use Rattle.tac_ir.specs.Answers.{call_answer, depth_of, fork_answer};
ghost use Rattle.tac_ir.specs.Module.{Module};
ghost use Rattle.tac_ir.specs.GoodForm.{GoodForm};
ghost use Rattle.tac_ir.specs.Path.{Start};
ghost use Rattle.tac_ir.specs.Threads.{root_start};
ghost use Rattle.tac_thread.specs.declared.flat.FlatStack.{FlatStack};
ghost use Rattle.tac_thread.specs.declared.want.Want.{Want};
ghost use Rattle.tac_thread.specs.declared.want.ReplyOf.{ReplyOf};
ghost use Rattle.tac_thread.specs.Doing.{want_of};
ghost use Rattle.tac_thread.specs.RunsOn.{RunsOn};
ghost use Rattle.tac_thread.specs.Begun.{root_of, branch_of};
ghost use Rattle.tac_thread.specs.Answered.{answered, joined};
ghost use Rattle.tac_thread.specs.Flat.{flat_meaning, with_frame, with_share};
ghost use Rattle.path_law.specs.Standing.{FlatLife, IsAt};
ghost use Rattle.path_law.specs.Begins.{root_stack, IsBranchAt};
ghost use Rattle.path_law.specs.Wants.{room_in, IsThreadsWant};
ghost use Rattle.path_law.specs.Fits.{answer_by};
ghost use Rattle.path_law.specs.Told.{IsTold};

/// Thread 1 begins where its path begins.
pub fn root_begins()
    ensures { (m : Module) (l : FlatLife) → RunsOn flat_meaning m.code (root_of flat_meaning m.code (root_stack m)) l → IsAt m.code (root_start m) [] l }
{}

/// Branch `i` of a fork begins where its path begins, in the `i`-th of equal shares of the words above its parent's frame.
pub fn branch_begins()
    ensures { (c : Code) (s : Start) (own : List Entry) (l b : FlatLife) (n i : ℕ) (stack : FlatStack) → IsAt c s own l → want_of flat_meaning c l ≡ Some (Want.Fork n) → 1 ≤ i → with_share (room_in l.top.stack / n) l.top.stack i ≡ Some stack → RunsOn flat_meaning c (branch_of flat_meaning c l i stack) b → IsBranchAt c s own i b }
{}

/// A thread wants what its life wants.
pub fn wants_are_the_threads()
    ensures { (c : Code) (s : Start) (own : List Entry) (l : FlatLife) (w : Want ℕ) → IsAt c s own l → want_of flat_meaning c l ≡ Some w → IsThreadsWant c s own l w }
{}

/// A life that is told the answer of its event stands where the path stands with the entry of that event.
pub fn answered_goes_on()
    ensures { (c : Code) (s : Start) (own : List Entry) (l k : FlatLife) (e : Entry) (reply : ReplyOf ℕ FlatStack) → GoodForm c → IsAt c s own l → IsTold c l e reply → RunsOn flat_meaning c (answered flat_meaning c l reply) k → IsAt c s (e ∷ own) k }
{}

/// A life that goes on behind a fork stands where the path of the same entries stands.
pub fn joined_goes_on()
    ensures { (c : Code) (s : Start) (own : List Entry) (l k : FlatLife) → IsAt c s own l → want_of flat_meaning c l ≡ Some Want.Waits → RunsOn flat_meaning c (joined c l) k → IsAt c s own k }
{}

/// A call is answered by whether its frame has room, and a fork that is not too deep by whether its shares have.
pub fn stacks_are_answers()
    ensures calls { (m : Module) (f : ℕ) (s : FlatStack) → call_answer m (room_in s) f ≡ answer_by Stop.Stack (with_frame (frame_words m.code f) s) }
    ensures forks { (n branches i : ℕ) (s : FlatStack) → nat_le 14 (depth_of n) ≡ false → fork_answer n (room_in s) branches ≡ answer_by Stop.Share (with_share (room_in s / branches) s i) }
{}
