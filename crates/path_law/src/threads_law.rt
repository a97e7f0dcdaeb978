ghost use Rattle.std.specs.Prelude.{true, ◌≡◌, ℕ, Some, None, Option, List, [], ◌∷◌, length};
ghost use Rattle.dfi_base.specs.Lives;
ghost use Rattle.dfi_base.specs.Lives.{Ended};
ghost use Rattle.tac_ir.specs.declared.run.Op.{Op};
ghost use Rattle.tac_ir.specs.declared.run.Entry.{Entry};
ghost use Rattle.tac_ir.specs.Module.{Module};
ghost use Rattle.tac_ir.specs.GoodForm.{GoodForm};
ghost use Rattle.tac_ir.specs.Path.{stops};
ghost use Rattle.tac_ir.specs.Threads.{threads_of};
ghost use Rattle.tac_thread.specs.declared.flat.FlatStack.{FlatStack};
ghost use Rattle.tac_thread.specs.declared.want.ReplyOf.{ReplyOf};
ghost use Rattle.tac_thread.specs.Threads.{running, IsRunnable, IsBegun, IsFed, IsForked};
ghost use Rattle.tac_thread.specs.Flat.{flat_meaning};
ghost use Rattle.path_law.specs.Standing.{FlatLife};
ghost use Rattle.path_law.specs.Begins.{root_stack};
ghost use Rattle.path_law.specs.InPlace.{FlatLives, AreInPlace};
ghost use Rattle.path_law.specs.Runs.{Runs};
ghost use Rattle.path_law.specs.Returned.{HasReturned, MainReturned};
ghost use Rattle.path_law.specs.Alive.{AreAlive, IsNextTold, AreShares};

/// A tree that begins has the threads of the empty history.
pub fn tree_begins()
    ensures { (m : Module) (f : FlatLives) (done : Option ℕ) → IsBegun flat_meaning m.code (root_stack m) f done → AreInPlace m [] f done }
{}

/// What a thread of the tree wants is its next event after the history.
pub fn runs_what_is_next()
    ensures { (m : Module) (h : List Entry) (f : FlatLives) (done : Option ℕ) (n : ℕ) (l : FlatLife) → AreAlive m h f done → running (f n) ≡ Some l → Runs m h n l }
{}

/// The threads that run in the tree are those that are runnable after the history.
pub fn same_threads_run()
    ensures { (m : Module) (h : List Entry) (f : FlatLives) (done : Option ℕ) (n : ℕ) → AreAlive m h f done → (IsRunnable f n → Lives.IsRunnable (threads_of m) h n) × (Lives.IsRunnable (threads_of m) h n → IsRunnable f n) }
{}

/// Thread 1 lives no more in the tree exactly where it has ended with all its branches.
pub fn same_end()
    ensures { (m : Module) (h : List Entry) (f : FlatLives) (done : Option ℕ) → AreAlive m h f done → (f 1 ≡ None → Ended (threads_of m) h 1) × (Ended (threads_of m) h 1 → f 1 ≡ None) }
{}

/// Main's value is there once thread 1 has ended, and it is the one that main returned.
pub fn main_has_its_value()
    ensures ended { (m : Module) (h : List Entry) (f : FlatLives) (done : Option ℕ) → AreAlive m h f done → Ended (threads_of m) h 1 → HasReturned m h done }
    ensures lives { (m : Module) (h : List Entry) (f : FlatLives) (done : Option ℕ) → AreAlive m h f done → (Ended (threads_of m) h 1 → ⊥) → done ≡ None }
{}

/// In code of a good form thread 1 ends by the return of main, whose value is there.
pub fn main_returns_its_value()
    ensures { (m : Module) (h : List Entry) (f : FlatLives) (done : Option ℕ) → GoodForm m.code → AreAlive m h f done → Ended (threads_of m) h 1 → MainReturned m h done }
{}

/// Where an answer stops the run, thread 1 has not ended.
pub fn stopped_run_has_not_ended()
    ensures { (m : Module) (h : List Entry) (f : FlatLives) (done : Option ℕ) (e : Entry) (l : FlatLife) → AreAlive m h f done → running (f e.name.0) ≡ Some l → stops e.answer ≡ true → (Ended (threads_of m) h 1 → ⊥) → Ended (threads_of m) (e ∷ h) 1 → ⊥ }
{}

/// A tree whose thread was told an answer has the threads of the history with that entry.
pub fn fed_tree_goes_on()
    ensures { (m : Module) (h : List Entry) (f g : FlatLives) (d b : Option ℕ) (e : Entry) (reply : ReplyOf ℕ FlatStack) → GoodForm m.code → AreAlive m h f d → IsNextTold m f e reply → ((n : ℕ) → e.op ≡ Op.Fork n → ⊥) → IsFed flat_meaning m.code f d e.name.0 reply g b → AreInPlace m (e ∷ h) g b }
{}

/// A tree whose thread forked has the threads of the history with that entry.
pub fn forked_tree_goes_on()
    ensures { (m : Module) (h : List Entry) (f g : FlatLives) (d b : Option ℕ) (e : Entry) (stacks : List FlatStack) → GoodForm m.code → AreAlive m h f d → (now : IsNextTold m f e ReplyOf.Unit) → e.op ≡ Op.Fork (length stacks) → AreShares now.life.top.stack stacks → IsForked flat_meaning m.code f d e.name.0 stacks g b → AreInPlace m (e ∷ h) g b }
{}
