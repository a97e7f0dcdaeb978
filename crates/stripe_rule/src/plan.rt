use std::collections::LinkedList;
use tac_ir::Module;

/// What a shared memory is for: a module, its input, how many stripes its words are dealt to, and how many entries there may be.
#[derive(Drop)]
pub struct Plan<'m> {
    pub md: &'m Module,
    pub input: Vec<i32>,
    pub stripes: usize,
    pub budget: u64,
}

/// A plan as views have it, which borrow nothing. No value of it is made.
pub struct Terms {
    pub md: Module,
    pub input: LinkedList<i32>,
    pub stripes: usize,
    pub budget: u64,
}
