ghost use Rattle.std.specs.Prelude.{◌≡◌, ℕ, ◌<◌, ◌^◌, ◌∷◌, ◌↔◌, Some, All, Contains, IsTrue, length};
ghost use Rattle.least_rows.specs.Rules.{row_of, row_has, Passes, IsMoved, IsLoaded, IsFitting, IsFittingRule, IsClosed};
ghost use Rattle.least_rows.specs.FirstOpen.{IsFirstOpen};

use crate::index::has_member;
use crate::rules::{Rule, System};
use dfi_base::Bits;

/// The first rule that asks for more.
pub fn first_open(system: &System, rows: &[Bits]) -> Option<u32>
    requires { IsFitting system.now rows.now }
    ensures { IsFirstOpen system.now rows.now result }
{
    for (i, rule) in system.rules.as_slice().iter().enumerate() {
        if !is_closed(system, rows, rule) {
            return Some(i as u32);
        }
    }
    None
}

fn is_closed(system: &System, rows: &[Bits], rule: &Rule) -> bool
    requires rows { All (λ row. length row ≡ system.now.width) rows.now }
    requires masks { All (λ row. length row ≡ system.now.width) system.now.masks }
    requires rule { IsFittingRule system.now.width (length system.now.masks) (length rows.now) rule.now }
    requires few { length rows.now < 2 ^ 32 }
    ensures { IsTrue result ↔ IsClosed system.now rows.now rule.now }
{
    match rule {
        Rule::Has { row, member } => has_member(&rows[*row as usize], *member),
        Rule::Flow { from, mask, to } => { flows(rows, system.masks.as_slice(), *from, *mask, *to) }
        Rule::Shift { from, mask, by, to } => moves(
            rows,
            system.masks.as_slice(),
            *from,
            *mask,
            *by,
            *to,
        ),
        Rule::Meet { first, rest, to } => meets(rows, *first, rest.as_slice(), *to),
        Rule::Guard {
            test,
            member,
            from,
            to,
        } => {
            !has_member(&rows[*test as usize], *member)
                || rows[*from as usize].is_within(&rows[*to as usize])
        }
        Rule::Store { targets, from } => stores(rows, *targets, *from),
        Rule::Load { sources, to } => loads(rows, *sources, *to),
    }
}

fn flows(rows: &[Bits], masks: &[Bits], from: u32, mask: Option<u32>, to: u32) -> bool
    requires from { from < length rows.now }
    requires to { to < length rows.now }
    requires mask { (m : ℕ) → mask ≡ Some m → m < length masks.now }
    requires rows { All (λ row. length row ≡ length (row_of rows.now to)) rows.now }
    requires masks { All (λ row. length row ≡ length (row_of rows.now to)) masks.now }
    ensures { IsTrue result ↔ ((k : ℕ) → IsTrue (row_has rows.now from k) → Passes masks.now mask k → IsTrue (row_has rows.now to k)) }
{
    match mask {
        Some(mask) => {
            rows[from as usize].is_within_masked(&rows[to as usize], &masks[mask as usize])
        }
        None => rows[from as usize].is_within(&rows[to as usize]),
    }
}

fn moves(rows: &[Bits], masks: &[Bits], from: u32, mask: u32, by: u32, to: u32) -> bool
    requires from { from < length rows.now }
    requires to { to < length rows.now }
    requires mask { mask < length masks.now }
    requires rows { All (λ row. length row ≡ length (row_of rows.now to)) rows.now }
    requires masks { All (λ row. length row ≡ length (row_of rows.now to)) masks.now }
    ensures { IsTrue result ↔ ((k : ℕ) → k < length (row_of rows.now to) → IsMoved rows.now masks.now from mask by k → IsTrue (row_has rows.now to k)) }
{
    let row = &rows[to as usize];
    for k in by..row.len() {
        if !row.get(k)
            && has_member(&rows[from as usize], k - by)
            && has_member(&masks[mask as usize], k - by)
        {
            return false;
        }
    }
    true
}

fn meets(rows: &[Bits], first: u32, rest: &[u32], to: u32) -> bool
    requires first { first < length rows.now }
    requires rest { All (λ from. from < length rows.now) rest.now }
    requires to { to < length rows.now }
    requires rows { All (λ row. length row ≡ length (row_of rows.now to)) rows.now }
    ensures { IsTrue result ↔ ((k : ℕ) → ((from : ℕ) → Contains (first ∷ rest.now) from → IsTrue (row_has rows.now from k)) → IsTrue (row_has rows.now to k)) }
{
    for k in 0..rows[first as usize].len() {
        if !has_member(&rows[to as usize], k) && meet_has(rows, first, rest, k) {
            return false;
        }
    }
    true
}

// Whether all these rows have a member.
fn meet_has(rows: &[Bits], first: u32, rest: &[u32], k: u32) -> bool
    requires first { first < length rows.now }
    requires rest { All (λ from. from < length rows.now) rest.now }
    ensures { IsTrue result ↔ ((from : ℕ) → Contains (first ∷ rest.now) from → IsTrue (row_has rows.now from k)) }
{
    if !has_member(&rows[first as usize], k) {
        return false;
    }
    for from in rest {
        if !has_member(&rows[*from as usize], k) {
            return false;
        }
    }
    true
}

fn stores(rows: &[Bits], targets: u32, from: u32) -> bool
    requires targets { targets < length rows.now }
    requires from { from < length rows.now }
    requires rows { All (λ row. length row ≡ length (row_of rows.now from)) rows.now }
    requires few { length rows.now < 2 ^ 32 }
    ensures { IsTrue result ↔ ((r k : ℕ) → r < length rows.now → IsTrue (row_has rows.now targets r) → IsTrue (row_has rows.now from k) → IsTrue (row_has rows.now r k)) }
{
    for r in 0..rows.len() {
        if has_member(&rows[targets as usize], r as u32)
            && !rows[from as usize].is_within(&rows[r])
        {
            return false;
        }
    }
    true
}

fn loads(rows: &[Bits], sources: u32, to: u32) -> bool
    requires sources { sources < length rows.now }
    requires to { to < length rows.now }
    requires rows { All (λ row. length row ≡ length (row_of rows.now to)) rows.now }
    requires few { length rows.now < 2 ^ 32 }
    ensures { IsTrue result ↔ ((k : ℕ) → IsLoaded rows.now sources k → IsTrue (row_has rows.now to k)) }
{
    for r in 0..rows.len() {
        if has_member(&rows[sources as usize], r as u32) && !rows[r].is_within(&rows[to as usize]) {
            return false;
        }
    }
    true
}
