//! What the whole text says to each of its places: its structs and its functions, also those that stand later.

use crate::table::Table;
use c_typed::ObjectType;
use sqlite_items::Items;

/// What the spelling of a name says.
#[derive(Clone, Copy)]
pub enum Spelling {
    Other,
    Main,
    GetInt,
    Left,
    PutInt,
    Malloc,
    Free,
}

/// A field's name and its type.
#[derive(Drop)]
pub struct Member {
    pub name: u32,
    pub object: ObjectType,
}

/// A struct, with its words up to one past the limit of a type.
#[derive(Drop)]
pub struct Shape {
    pub members: Items<Member>,
    pub words: u32,
}

#[derive(Drop)]
pub struct Signature {
    pub name: u32,
    pub result: Option<ObjectType>,
    pub parameters: Items<ObjectType>,
}

#[derive(Drop)]
pub struct Outline {
    /// Of each name.
    pub spellings: Items<Spelling>,
    /// The number of the first struct of each tag.
    pub tags: Table,
    /// How many structs there are.
    pub structs: u32,
    pub shapes: Items<Shape>,
    /// The number of the first function of each name.
    pub numbers: Table,
    pub functions: Items<Signature>,
}
