ghost use Rattle.std.specs.Prelude.{◌≡◌};
ghost use Rattle.tac_ir.specs.Layout.{stack_from, memory_words};

use crate::code::Code;
use dfi_base::memory_map::{
    LARGE_MEMORY_WORDS, LARGE_STACK_FROM, SMALL_MEMORY_WORDS, SMALL_STACK_FROM,
};
use dfi_base::{Bits, Point};
use sqlite_items::Items;
use std::marker::Model;

/// Which of the two memories a module is for.
#[derive(Clone, Copy)]
pub enum Size {
    Small,
    Large,
}

impl Size {
    /// The first word of the stacks, which is the first behind the heap.
    pub fn stack_from(self) -> u32
        ensures { result ≡ stack_from self }
    {
        match self {
            Size::Small => SMALL_STACK_FROM,
            Size::Large => LARGE_STACK_FROM,
        }
    }

    /// How many words there are.
    pub fn memory_words(self) -> u32
        ensures { result ≡ memory_words self }
    {
        match self {
            Size::Small => SMALL_MEMORY_WORDS,
            Size::Large => LARGE_MEMORY_WORDS,
        }
    }
}

/// The class of each definition, from definition 1 on.
#[derive(Drop)]
pub struct Classes {
    pub list: Items<u32>,
}

/// The definitions that each read allows, ascending, from read 1 on.
#[derive(Drop)]
pub struct Sets {
    pub lists: Items<Items<u32>>,
}

/// Whose row of nodes it is: that of a temporary of a function, or of a node.
#[derive(Clone, Copy)]
pub enum Key {
    Temp { fun: u32, temp: u32 },
    Node(u32),
}

/// The nodes to which the value of a temporary or a node may point, ascending.
#[derive(Drop)]
pub struct PointsRow {
    pub key: Key,
    pub nodes: Items<u32>,
}

/// The rows that are not empty, temporaries before nodes, each kind in its order.
#[derive(Drop)]
pub struct Points {
    pub rows: Items<PointsRow>,
}

/// A definition and a leaf that it may touch.
#[derive(Clone, Copy)]
pub struct Fact {
    pub def: u32,
    pub leaf: u32,
}

/// The facts of code, in the order of definitions and then of leaves; they are numbered from 0.
#[derive(Drop)]
pub struct Facts {
    pub pairs: Items<Fact>,
}

/// The facts of code, and for each point, in the order of the code, a row as long as they are: those that reach it.
#[derive(Drop)]
pub struct Reach {
    pub facts: Facts,
    pub rows: Items<Bits>,
}

/// The facts that reach a point, ascending.
#[derive(Drop)]
pub struct ReachRow {
    pub point: Point,
    pub facts: Items<u32>,
}

/// Code with what was found out about it. `removed` says of each read, from read 1 on, whether it goes unchecked;
/// `reach` has the rows that are not empty, in the order of their points. Members and rows stand in order: that is
/// kept by each value of this type.
#[derive(Drop)]
pub struct Module {
    pub size: Size,
    pub code: Code,
    pub classes: Classes,
    pub sets: Sets,
    pub removed: Items<bool>,
    pub points: Points,
    pub reach: Items<ReachRow>,
}

impl Model for Module {
    ghost use Rattle.tac_ir.specs.Module.{Module, IsOrdered};

    ghost Value = { Module };

    ghost view = { λ m. record { size = m.size; code = m.code; classes = m.classes.list; sets = m.sets.lists; removed = m.removed; points = m.points.rows; reach = m.reach } };

    ghost invariant = { λ m. IsOrdered m.sets.lists m.removed m.points.rows m.reach };
}
