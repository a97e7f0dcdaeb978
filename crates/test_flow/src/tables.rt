ghost use Rattle.std.specs.Prelude.{◌≡◌, IfOk, IsTrue, map};
ghost use Rattle.test_flow.specs.Worked.{are_fitting, counts_of, row_of};

use crate::program::Program;
use sqlite_items::Items;
use std::alloc::{AllocError, Global};
use tac_ir::{Key, Points, PointsRow};

/// A temporary or a node, and the nodes to which it may point.
#[derive(Clone, Copy)]
pub struct Line(Key, &'static [u32]);

/// A member of the table of points of the arrays: that of a temporary, or one of a node.
#[derive(Clone, Copy)]
pub enum Member {
    None,
    Address,
    Item,
    OtherAddress,
    OtherItem,
    Kept,
    OtherKept,
    Read,
    OtherRead,
    Moved,
    OtherMoved,
    LastAddress,
    LastItem,
    LastMoved,
}

const T0: Line = Line(Key::Temp { fun: 0, temp: 0 }, &[0]);

const T1: Line = Line(Key::Temp { fun: 0, temp: 1 }, &[1]);

const T3: Line = Line(Key::Temp { fun: 0, temp: 3 }, &[2]);

const T4: Line = Line(Key::Temp { fun: 0, temp: 4 }, &[3]);

const T6: Line = Line(Key::Temp { fun: 0, temp: 6 }, &[1, 3]);

const T8: Line = Line(Key::Temp { fun: 0, temp: 8 }, &[1, 3]);

const T10: Line = Line(Key::Temp { fun: 0, temp: 10 }, &[2]);

const T11: Line = Line(Key::Temp { fun: 0, temp: 11 }, &[3]);

const T13: Line = Line(Key::Temp { fun: 0, temp: 13 }, &[3]);

const P: Line = Line(Key::Node(4), &[1, 3]);

const T6_A: Line = Line(Key::Temp { fun: 0, temp: 6 }, &[1]);

const T6_B: Line = Line(Key::Temp { fun: 0, temp: 6 }, &[3]);

const T8_A: Line = Line(Key::Temp { fun: 0, temp: 8 }, &[1]);

const T8_B: Line = Line(Key::Temp { fun: 0, temp: 8 }, &[3]);

const P_A: Line = Line(Key::Node(4), &[1]);

const P_B: Line = Line(Key::Node(4), &[3]);

impl Member {
    /// The table of points of the arrays without this member.
    pub fn others(self) -> &'static [Line]
        ensures { IsTrue (are_fitting (counts_of Program.Arrays) (map row_of result.now)) }
    {
        match self {
            Member::None => &[T0, T1, T3, T4, T6, T8, T10, T11, T13, P],
            Member::Address => &[T1, T3, T4, T6, T8, T10, T11, T13, P],
            Member::Item => &[T0, T3, T4, T6, T8, T10, T11, T13, P],
            Member::OtherAddress => &[T0, T1, T4, T6, T8, T10, T11, T13, P],
            Member::OtherItem => &[T0, T1, T3, T6, T8, T10, T11, T13, P],
            Member::Kept => &[T0, T1, T3, T4, T6, T8, T10, T11, T13, P_B],
            Member::OtherKept => &[T0, T1, T3, T4, T6, T8, T10, T11, T13, P_A],
            Member::Read => &[T0, T1, T3, T4, T6_B, T8, T10, T11, T13, P],
            Member::OtherRead => &[T0, T1, T3, T4, T6_A, T8, T10, T11, T13, P],
            Member::Moved => &[T0, T1, T3, T4, T6, T8_B, T10, T11, T13, P],
            Member::OtherMoved => &[T0, T1, T3, T4, T6, T8_A, T10, T11, T13, P],
            Member::LastAddress => &[T0, T1, T3, T4, T6, T8, T11, T13, P],
            Member::LastItem => &[T0, T1, T3, T4, T6, T8, T10, T13, P],
            Member::LastMoved => &[T0, T1, T3, T4, T6, T8, T10, T11, P],
        }
    }
}

impl Program {
    /// The table of points without this member; only the arrays have any.
    pub fn others(self, member: Member) -> &'static [Line]
        ensures { IsTrue (are_fitting (counts_of self) (map row_of result.now)) }
    {
        match self {
            Program::Arrays => member.others(),
            _ => &[],
        }
    }

    /// The point from which on each fact reaches, by their numbers: everywhere, but for the arrays.
    pub fn starts(self) -> &'static [u32] {
        match self {
            Program::Arrays => &[0, 0, 3, 8, 10, 15, 15],
            _ => &[0, 0, 0, 0],
        }
    }
}

/// The rows of a table of points.
pub fn points_of(alloc: Global, lines: &[Line]) -> Result<Points, AllocError>
    ensures { IfOk result (λ p. p.rows ≡ map row_of lines.now) }
{
    let mut rows = Vec::new(alloc);
    for line in lines {
        rows.push(row_of(alloc, *line)?)?;
    }
    Ok(Points {
        rows: Items::from_vec(rows),
    })
}

fn row_of(alloc: Global, line: Line) -> Result<PointsRow, AllocError>
    ensures { IfOk result (λ row. row ≡ row_of line) }
{
    let Line(key, nodes) = line;
    Ok(PointsRow {
        key,
        nodes: Items::from_slice(alloc, nodes)?,
    })
}
