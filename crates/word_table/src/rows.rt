ghost use Rattle.std.specs.Prelude.{◌≡◌, ℕ, ◌/◌, ◌<◌, ◌≤◌, IfOk, slice_index};
ghost use Rattle.tac_ir.specs.Answers.{class_of};
ghost use Rattle.word_table.specs.tools.Classes.{AreShort};
ghost use Rattle.word_table.specs.tools.BitRows.{row_has, IsRow, AreRows};
ghost use Rattle.word_table.specs.Tables.{CanRun};
ghost use Rattle.word_table.specs.Decides.{DecideReads};

use crate::bits::Bits;
use crate::classes::class_of;
use dfi_base::Memory;
use sqlite_items::Items;
use std::alloc::Global;
use tac_ir::Module;

/// The classes that each read of a module allows.
#[derive(Drop)]
pub struct ReadRows {
    pub rows: Vec<Bits>,
}

impl ReadRows {
    /// The rows of a module.
    pub fn new(alloc: Global, m: &Module) -> Result<ReadRows, Memory>
        requires { CanRun m.now }
        ensures { IfOk result (λ made. DecideReads m.now made.rows.items) }
    {
        let width = width_of(m.classes.list.as_slice());
        let rows = rows_of(alloc, m, m.sets.lists.as_slice(), width)?;
        Ok(ReadRows { rows })
    }
}

/// For each of these sets a row of bits, of so many words: the classes of its members.
pub fn rows_of(
    alloc: Global,
    m: &Module,
    sets: &[Items<u32>],
    width: usize,
) -> Result<Vec<Bits>, Memory>
    requires short { AreShort m.now }
    requires wide { (d : ℕ) → class_of m.now d / 64 < width }
    ensures { IfOk result (λ rows. AreRows m.now sets.now rows.items) }
{
    let mut rows = Vec::new(alloc);
    for set in sets {
        rows.push(row_of(alloc, m, set.as_slice(), width)?)?;
    }
    Ok(rows)
}

fn row_of(alloc: Global, m: &Module, set: &[u32], width: usize) -> Result<Bits, Memory>
    requires short { AreShort m.now }
    requires wide { (d : ℕ) → class_of m.now d / 64 < width }
    ensures { IfOk result (λ row. IsRow m.now set.now row) }
{
    let mut row = Bits::new(alloc, width)?;
    for def in set {
        row.put(class_of(m, *def) as usize);
    }
    Ok(row)
}

/// How many words a row has.
pub fn width_of(classes: &[u32]) -> usize
    ensures { (k : ℕ) → slice_index classes.now k / 64 < result }
{
    let mut greatest = 0u32;
    for class in classes {
        greatest = greatest.max(*class);
    }
    greatest as usize / 64 + 1
}

/// Whether a class is in the row of a read.
pub fn row_has(rows: &[Bits], read: u32, class: u16) -> bool
    ensures { result ≡ row_has rows.now read class }
{
    if read == 0 {
        return false;
    }
    match rows.get(read as usize - 1) {
        Some(row) => row.get(class as usize),
        None => false,
    }
}
