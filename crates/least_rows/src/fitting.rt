ghost use Rattle.std.specs.Prelude.{◌≡◌, ℕ, ◌<◌, ◌↔◌, Some, All, IsTrue, length};
ghost use Rattle.least_rows.specs.Rules.{IsFitting, IsFittingRule};

use crate::rules::{Rule, System};
use dfi_base::Bits;

/// Whether the rules are about tables such as this one. Tests and benchmarks, which take rules from a text, ask this; who makes
/// rules proves it of them.
pub fn is_fitting(system: &System, rows: &[Bits]) -> bool
    ensures { IsTrue result ↔ IsFitting system.now rows.now }
{
    let masks = system.masks.as_slice();
    let rules = system.rules.as_slice();
    rules.len() <= u32::MAX as usize
        && rows.len() <= u32::MAX as usize
        && are_wide(rows, system.width)
        && are_wide(masks, system.width)
        && are_fitting(rules, system.width, masks.len(), rows.len())
}

fn are_wide(rows: &[Bits], width: u32) -> bool
    ensures { IsTrue result ↔ All (λ row. length row ≡ width) rows.now }
{
    for row in rows {
        if row.len() != width {
            return false;
        }
    }
    true
}

fn are_fitting(rules: &[Rule], width: u32, masks: usize, rows: usize) -> bool
    ensures { IsTrue result ↔ All (IsFittingRule width masks rows) rules.now }
{
    for rule in rules {
        if !is_fitting_rule(rule, width, masks, rows) {
            return false;
        }
    }
    true
}

fn is_fitting_rule(rule: &Rule, width: u32, masks: usize, rows: usize) -> bool
    ensures { IsTrue result ↔ IsFittingRule width masks rows rule.now }
{
    match rule {
        Rule::Has { row, member } => is_below(*row, rows) && *member < width,
        Rule::Flow { from, mask, to } => {
            is_below(*from, rows) && is_below(*to, rows) && is_mask(*mask, masks)
        }
        Rule::Shift { from, mask, to, .. } => {
            is_below(*from, rows) && is_below(*to, rows) && is_below(*mask, masks)
        }
        Rule::Meet { first, rest, to } => {
            is_below(*first, rows) && is_below(*to, rows) && are_below(rest.as_slice(), rows)
        }
        Rule::Guard {
            test,
            member,
            from,
            to,
        } => {
            is_below(*test, rows) && *member < width && is_below(*from, rows) && is_below(*to, rows)
        }
        Rule::Store { targets, from } => is_below(*targets, rows) && is_below(*from, rows),
        Rule::Load { sources, to } => is_below(*sources, rows) && is_below(*to, rows),
    }
}

fn is_below(number: u32, count: usize) -> bool
    ensures { IsTrue result ↔ (number < count) }
{
    (number as usize) < count
}

fn is_mask(mask: Option<u32>, masks: usize) -> bool
    ensures { IsTrue result ↔ ((m : ℕ) → mask ≡ Some m → m < masks) }
{
    match mask {
        Some(mask) => (mask as usize) < masks,
        None => true,
    }
}

fn are_below(numbers: &[u32], count: usize) -> bool
    ensures { IsTrue result ↔ All (λ number. number < count) numbers.now }
{
    for number in numbers {
        if !is_below(*number, count) {
            return false;
        }
    }
    true
}
