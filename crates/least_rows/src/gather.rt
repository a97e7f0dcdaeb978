//! What a rule asks of the row that it flows into, gathered in a row beside the table.

ghost use Rattle.std.specs.Prelude.{◌≡◌, ℕ, ◌<◌, ◌∷◌, ◌↔◌, Some, All, Contains, IsTrue, length, false, replicate};
ghost use Rattle.dfi_base.specs.Bits.{has};
ghost use Rattle.least_rows.specs.Rules.{row_has, Passes, IsMoved, IsLoaded};

use dfi_base::Bits;

/// A row, under a mask if there is one.
pub fn gather_row(rows: &[Bits], masks: &[Bits], from: u32, mask: Option<u32>, asked: &mut Bits)
    requires from { from < length rows.now }
    requires rows { All (λ row. length row ≡ length asked.old) rows.now }
    requires mask { (m : ℕ) → mask ≡ Some m → m < length masks.now }
    requires masks { All (λ row. length row ≡ length asked.old) masks.now }
    ensures long { length asked.new ≡ length asked.old }
    ensures asked { (k : ℕ) → IsTrue (has asked.new k) ↔ (IsTrue (row_has rows.now from k) × Passes masks.now mask k) }
{
    asked.copy_from(&rows[from as usize]);
    if let Some(mask) = mask {
        asked.and(&masks[mask as usize]);
    }
}

/// The members of a row that a mask lets pass, moved up.
pub fn gather_moved(rows: &[Bits], masks: &[Bits], from: u32, mask: u32, by: u32, asked: &mut Bits)
    requires empty { asked.old ≡ replicate (length asked.old) false }
    requires from { from < length rows.now }
    requires rows { All (λ row. length row ≡ length asked.old) rows.now }
    requires mask { mask < length masks.now }
    requires masks { All (λ row. length row ≡ length asked.old) masks.now }
    ensures long { length asked.new ≡ length asked.old }
    ensures asked { (k : ℕ) → IsTrue (has asked.new k) ↔ ((k < length asked.old) × IsMoved rows.now masks.now from mask by k) }
{
    let width = asked.len();
    let mut at = 0;
    while at < width {
        let Some(n) = rows[from as usize].next_member(at) else {
            return;
        };
        if masks[mask as usize].get(n) && by < width - n {
            asked.put(n + by, true);
        }
        at = n + 1;
    }
}

/// What all these rows have.
pub fn gather_meet(rows: &[Bits], first: u32, rest: &[u32], asked: &mut Bits)
    requires first { first < length rows.now }
    requires rest { All (λ from. from < length rows.now) rest.now }
    requires rows { All (λ row. length row ≡ length asked.old) rows.now }
    ensures long { length asked.new ≡ length asked.old }
    ensures asked { (k : ℕ) → IsTrue (has asked.new k) ↔ ((from : ℕ) → Contains (first ∷ rest.now) from → IsTrue (row_has rows.now from k)) }
{
    asked.copy_from(&rows[first as usize]);
    for from in rest {
        asked.and(&rows[*from as usize]);
    }
}

/// What the rows have that are members of a row.
pub fn gather_loads(rows: &[Bits], sources: u32, asked: &mut Bits)
    requires empty { asked.old ≡ replicate (length asked.old) false }
    requires sources { sources < length rows.now }
    requires rows { All (λ row. length row ≡ length asked.old) rows.now }
    ensures long { length asked.new ≡ length asked.old }
    ensures asked { (k : ℕ) → IsTrue (has asked.new k) ↔ IsLoaded rows.now sources k }
{
    let width = asked.len();
    let mut at = 0;
    while at < width {
        let Some(from) = rows[sources as usize].next_member(at) else {
            return;
        };
        if let Some(row) = rows.get(from as usize) {
            asked.or(row);
        }
        at = from + 1;
    }
}
