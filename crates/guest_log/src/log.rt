ghost use Rattle.std.specs.Prelude.{◌≡◌, ◌+◌, ◌-◌, ◌<◌, ◌≤◌, [], ◌∷◌, ◌++◌, All, max, length, vec_len, vec_capacity, OnOk, OnErr};
ghost use Rattle.guest_log.specs.Tickets.{IsRising, Differ, IsUnion};

use crate::stamped::Stamped;
use dfi_base::Memory;
use std::alloc::Global;
use std::marker::Model;

/// Entries with rising tickets, the oldest first, and the number of entries that can be put behind without memory.
#[derive(Drop)]
pub struct Log {
    items: Vec<Stamped>,
    spare: u64,
}

impl Model for Log {
    ghost use Rattle.std.specs.Prelude.{◌+◌, ◌≤◌, vec_len, vec_capacity};
    ghost use Rattle.guest_log.specs.Tickets.{Log, IsRising};

    ghost Value = { Log };

    ghost view = { λ l. record { items = l.items.items; spare = l.spare } };

    ghost invariant = { λ l. IsRising l.items.items × (vec_len l.items + l.spare ≤ vec_capacity l.items) };
}

impl Log {
    /// A log with no entry and no spare room.
    pub fn new(alloc: Global) -> Log
        ensures { result ≡ record { items = []; spare = 0 } }
    {
        Log {
            items: Vec::new(alloc),
            spare: 0,
        }
    }

    /// Makes room for this many entries more.
    pub fn reserve(&mut self, more: u64) -> Result<(), Memory>
        ensures ok { OnOk result (self.new ≡ record self.old { spare = max self.old.spare more }) }
        ensures err { OnErr result (self.new ≡ self.old) }
    {
        self.items.reserve(more as usize)?;
        self.spare = self.spare.max(more);
        Ok(())
    }

    /// Puts an entry behind all others.
    pub fn push(&mut self, newest: Stamped)
        requires room { 0 < self.old.spare }
        requires newest { All (λ older. older.ticket < newest.ticket) self.old.items }
        ensures { self.new ≡ record { items = self.old.items ++ newest ∷ []; spare = self.old.spare - 1 } }
    {
        self.items.push_reserved(newest);
        self.spare -= 1;
    }

    /// Puts the entries of another log between those of this one, by their tickets.
    pub fn merge(&mut self, other: Log)
        requires room { length other.items ≤ self.old.spare }
        requires apart { Differ self.old.items other.items }
        ensures items { IsUnion self.old.items other.items self.new.items }
        ensures spare { self.new.spare ≡ self.old.spare - length other.items }
    {
        merge_into(&mut self.items, &other.items);
        self.spare -= other.items.len() as u64;
    }

    /// The entries.
    pub fn items(&self) -> &[Stamped]
        ensures items { result.now ≡ self.now.items }
        ensures rising { IsRising self.now.items }
    {
        &self.items
    }

    /// How many entries can be put behind without memory.
    pub fn spare(&self) -> u64
        ensures { result ≡ self.now.spare }
    {
        self.spare
    }
}

// Puts copies behind, in room that is there.
fn append(log: &mut Vec<Stamped>, others: &[Stamped])
    requires { vec_len log.old + length others.now ≤ vec_capacity log.old }
    ensures items { log.new.items ≡ log.old.items ++ others.now }
    ensures capacity { vec_capacity log.old ≤ vec_capacity log.new }
{
    log.extend_from_slice(others).unwrap();
}

// Merges in the log's own room, from the back: it is done as soon as the others are placed.
fn merge_into(log: &mut Vec<Stamped>, others: &[Stamped])
    requires room { vec_len log.old + length others.now ≤ vec_capacity log.old }
    requires rising { IsRising log.old.items × IsRising others.now }
    requires apart { Differ log.old.items others.now }
    ensures items { IsUnion log.old.items others.now log.new.items }
    ensures len { vec_len log.new ≡ vec_len log.old + length others.now }
    ensures capacity { vec_capacity log.old ≤ vec_capacity log.new }
{
    let mut left = log.len();
    let mut more = others.len();
    append(log, others);
    while more > 0 {
        let theirs = others[more - 1];
        if left > 0 && log[left - 1].ticket > theirs.ticket {
            log[left + more - 1] = log[left - 1];
            left -= 1;
        } else {
            log[left + more - 1] = theirs;
            more -= 1;
        }
    }
}
