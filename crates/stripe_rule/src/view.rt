use crate::content::Content;
use crate::plan::Terms;
use guest_log::Stamped;
use std::collections::LinkedList;

/// What a pass knows. No value of it is made.
pub struct View {
    pub plan: Terms,
    pub name: u64,
    // how many of the rights to draw a ticket it has, and how many of them it may use now
    pub parts: u64,
    pub ready: u64,
    // whether it holds a lock, which one, and what lies there
    pub holds: bool,
    pub stripe: usize,
    pub content: Content,
    // the newest entry first; its later tickets are at or above the floor
    pub log: LinkedList<Stamped>,
    pub floor: u64,
    pub kids: LinkedList<u64>,
    pub halted: bool,
    pub spent: bool,
    pub notes: Notes,
}

/// What its steps found. No value of it is made.
pub struct Notes {
    // the failed takings, and what the last of them found
    pub failed: u64,
    pub busy_at: u64,
    pub busy_by: u64,
    // the loads of the halt word and of the clock, and the last ticket that was too late
    pub asked: u64,
    pub looked: u64,
    pub last_spent: u64,
}
