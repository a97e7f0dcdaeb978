ghost use Rattle.std.specs.Prelude.{◌≡◌, ◌+◌, length, map, slice_set, true, IfOk};
ghost use Rattle.tac_ir.specs.Answers;
ghost use Rattle.tac_ir.specs.Text;
ghost use Rattle.alarm_report.specs.Marks.{AreMarks};

use dfi_base::{Memory, ReadNo};
use std::alloc::Global;
use tac_ir::Module;

/// The class of a definition, and 0 where it has none.
pub(crate) fn class_of(m: &Module, def: usize) -> u32
    ensures { result ≡ Answers.class_of m.now def }
{
    if def == 0 {
        return 0;
    }
    m.classes.list.get(def - 1).copied().unwrap_or(0)
}

/// The set of a read, and none where it has none.
pub(crate) fn set_of_read(m: &Module, read: ReadNo) -> &[u32]
    ensures { result.now ≡ Answers.set_of m.now read.0 }
{
    if read.0 == 0 {
        return &[];
    }
    match m.sets.lists.get(usize::from(read.0) - 1) {
        Some(set) => set.as_slice(),
        None => &[],
    }
}

/// The classes of the definitions of a set, ascending, each once.
pub(crate) fn classes_of_set(alloc: Global, m: &Module, set: &[u32]) -> Result<Vec<usize>, Memory>
    ensures { IfOk result (λ classes. classes.items ≡ Text.classes_of_set m.now set.now) }
{
    let marks = class_marks(alloc, m, set)?;
    let mut classes = Vec::new(alloc);
    for class in 1..marks.len() {
        if marks[class] {
            classes.push(class)?;
        }
    }
    Ok(classes)
}

// Says of each class, from 0 on, whether a definition of the set has it.
fn class_marks(alloc: Global, m: &Module, set: &[u32]) -> Result<Vec<bool>, Memory>
    ensures { IfOk result
        (λ marks. AreMarks marks.items (length m.now.classes + 1) (map (Answers.class_of m.now) set.now)) }
{
    let classes = m.classes.list.as_slice();
    let mut marks = vec![in alloc; false; classes.len() + 1]?;
    for def in set {
        let class = class_of(m, *def as usize) as usize;
        mark(&mut marks, class);
    }
    Ok(marks)
}

// Marks a class, where it has a place.
fn mark(marks: &mut Vec<bool>, class: usize)
    ensures { marks.new.items ≡ slice_set marks.old.items class true }
{
    if class < marks.len() {
        marks[class] = true;
    }
}
