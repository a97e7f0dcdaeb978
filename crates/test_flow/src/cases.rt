use crate::answers::Tables;
use crate::program::Program;
use crate::reach::Spot;
use crate::tables::Member;
use dfi_base::Memory;
use flow_rules::{Broken, Rule};
use std::alloc::Global;
use std::string::String;
use test_base::{Halt, Row};

/// What is asked: the facts of a program; where its tables are open, with all members, without one of the table of points of the
/// arrays, or without a fact at a point; or what a read finds, with all facts, or without one at a point.
#[derive(Clone, Copy)]
pub enum Case {
    Facts(Program),
    Whole(Program),
    Points(Member),
    Reach(Program, u32, u32),
    Found(Program, u16),
    FoundWithout(Program, u32, u32, u16),
}

pub static CASES: [Case; 153] = [
    Case::Facts(Program::Arrays),
    Case::Facts(Program::Twice),
    Case::Facts(Program::Once),
    Case::Facts(Program::Itself),
    Case::Facts(Program::Beside),
    Case::Whole(Program::Arrays),
    Case::Whole(Program::Twice),
    Case::Whole(Program::Once),
    Case::Whole(Program::Itself),
    Case::Whole(Program::Beside),
    Case::Points(Member::Address),
    Case::Points(Member::Item),
    Case::Points(Member::OtherAddress),
    Case::Points(Member::OtherItem),
    Case::Points(Member::Kept),
    Case::Points(Member::OtherKept),
    Case::Points(Member::Read),
    Case::Points(Member::OtherRead),
    Case::Points(Member::Moved),
    Case::Points(Member::OtherMoved),
    Case::Points(Member::LastAddress),
    Case::Points(Member::LastItem),
    Case::Points(Member::LastMoved),
    Case::Reach(Program::Arrays, 0, 0),
    Case::Reach(Program::Arrays, 1, 0),
    Case::Reach(Program::Arrays, 0, 1),
    Case::Reach(Program::Arrays, 1, 1),
    Case::Reach(Program::Arrays, 0, 2),
    Case::Reach(Program::Arrays, 1, 2),
    Case::Reach(Program::Arrays, 0, 3),
    Case::Reach(Program::Arrays, 1, 3),
    Case::Reach(Program::Arrays, 2, 3),
    Case::Reach(Program::Arrays, 0, 4),
    Case::Reach(Program::Arrays, 1, 4),
    Case::Reach(Program::Arrays, 2, 4),
    Case::Reach(Program::Arrays, 0, 5),
    Case::Reach(Program::Arrays, 1, 5),
    Case::Reach(Program::Arrays, 2, 5),
    Case::Reach(Program::Arrays, 0, 6),
    Case::Reach(Program::Arrays, 1, 6),
    Case::Reach(Program::Arrays, 2, 6),
    Case::Reach(Program::Arrays, 0, 7),
    Case::Reach(Program::Arrays, 1, 7),
    Case::Reach(Program::Arrays, 2, 7),
    Case::Reach(Program::Arrays, 0, 8),
    Case::Reach(Program::Arrays, 1, 8),
    Case::Reach(Program::Arrays, 2, 8),
    Case::Reach(Program::Arrays, 3, 8),
    Case::Reach(Program::Arrays, 0, 9),
    Case::Reach(Program::Arrays, 1, 9),
    Case::Reach(Program::Arrays, 2, 9),
    Case::Reach(Program::Arrays, 3, 9),
    Case::Reach(Program::Arrays, 0, 10),
    Case::Reach(Program::Arrays, 1, 10),
    Case::Reach(Program::Arrays, 2, 10),
    Case::Reach(Program::Arrays, 3, 10),
    Case::Reach(Program::Arrays, 4, 10),
    Case::Reach(Program::Arrays, 0, 11),
    Case::Reach(Program::Arrays, 1, 11),
    Case::Reach(Program::Arrays, 2, 11),
    Case::Reach(Program::Arrays, 3, 11),
    Case::Reach(Program::Arrays, 4, 11),
    Case::Reach(Program::Arrays, 0, 12),
    Case::Reach(Program::Arrays, 1, 12),
    Case::Reach(Program::Arrays, 2, 12),
    Case::Reach(Program::Arrays, 3, 12),
    Case::Reach(Program::Arrays, 4, 12),
    Case::Reach(Program::Arrays, 0, 13),
    Case::Reach(Program::Arrays, 1, 13),
    Case::Reach(Program::Arrays, 2, 13),
    Case::Reach(Program::Arrays, 3, 13),
    Case::Reach(Program::Arrays, 4, 13),
    Case::Reach(Program::Arrays, 0, 14),
    Case::Reach(Program::Arrays, 1, 14),
    Case::Reach(Program::Arrays, 2, 14),
    Case::Reach(Program::Arrays, 3, 14),
    Case::Reach(Program::Arrays, 4, 14),
    Case::Reach(Program::Arrays, 0, 15),
    Case::Reach(Program::Arrays, 1, 15),
    Case::Reach(Program::Arrays, 2, 15),
    Case::Reach(Program::Arrays, 3, 15),
    Case::Reach(Program::Arrays, 4, 15),
    Case::Reach(Program::Arrays, 5, 15),
    Case::Reach(Program::Arrays, 6, 15),
    Case::Reach(Program::Arrays, 0, 16),
    Case::Reach(Program::Arrays, 1, 16),
    Case::Reach(Program::Arrays, 2, 16),
    Case::Reach(Program::Arrays, 3, 16),
    Case::Reach(Program::Arrays, 4, 16),
    Case::Reach(Program::Arrays, 5, 16),
    Case::Reach(Program::Arrays, 6, 16),
    Case::Reach(Program::Arrays, 0, 17),
    Case::Reach(Program::Arrays, 1, 17),
    Case::Reach(Program::Arrays, 2, 17),
    Case::Reach(Program::Arrays, 3, 17),
    Case::Reach(Program::Arrays, 4, 17),
    Case::Reach(Program::Arrays, 5, 17),
    Case::Reach(Program::Arrays, 6, 17),
    Case::Reach(Program::Arrays, 0, 18),
    Case::Reach(Program::Arrays, 1, 18),
    Case::Reach(Program::Arrays, 2, 18),
    Case::Reach(Program::Arrays, 3, 18),
    Case::Reach(Program::Arrays, 4, 18),
    Case::Reach(Program::Arrays, 5, 18),
    Case::Reach(Program::Arrays, 6, 18),
    Case::Reach(Program::Arrays, 0, 19),
    Case::Reach(Program::Arrays, 1, 19),
    Case::Reach(Program::Arrays, 2, 19),
    Case::Reach(Program::Arrays, 3, 19),
    Case::Reach(Program::Arrays, 4, 19),
    Case::Reach(Program::Arrays, 5, 19),
    Case::Reach(Program::Arrays, 6, 19),
    Case::Reach(Program::Arrays, 0, 20),
    Case::Reach(Program::Arrays, 1, 20),
    Case::Reach(Program::Arrays, 2, 20),
    Case::Reach(Program::Arrays, 3, 20),
    Case::Reach(Program::Arrays, 4, 20),
    Case::Reach(Program::Arrays, 5, 20),
    Case::Reach(Program::Arrays, 6, 20),
    Case::Reach(Program::Arrays, 0, 21),
    Case::Reach(Program::Arrays, 1, 21),
    Case::Reach(Program::Arrays, 2, 21),
    Case::Reach(Program::Arrays, 3, 21),
    Case::Reach(Program::Arrays, 4, 21),
    Case::Reach(Program::Arrays, 5, 21),
    Case::Reach(Program::Arrays, 6, 21),
    Case::Reach(Program::Arrays, 0, 22),
    Case::Reach(Program::Arrays, 1, 22),
    Case::Reach(Program::Arrays, 2, 22),
    Case::Reach(Program::Arrays, 3, 22),
    Case::Reach(Program::Arrays, 4, 22),
    Case::Reach(Program::Arrays, 5, 22),
    Case::Reach(Program::Arrays, 6, 22),
    Case::Reach(Program::Twice, 0, 2),
    Case::Reach(Program::Twice, 1, 2),
    Case::Reach(Program::Twice, 1, 3),
    Case::Reach(Program::Twice, 0, 3),
    Case::Reach(Program::Twice, 2, 3),
    Case::Reach(Program::Once, 1, 5),
    Case::Reach(Program::Once, 2, 5),
    Case::Reach(Program::Itself, 1, 5),
    Case::Reach(Program::Beside, 2, 10),
    Case::Found(Program::Arrays, 1),
    Case::Found(Program::Arrays, 2),
    Case::Found(Program::Arrays, 3),
    Case::FoundWithout(Program::Arrays, 3, 10, 1),
    Case::FoundWithout(Program::Arrays, 5, 19, 3),
    Case::FoundWithout(Program::Arrays, 6, 19, 3),
    Case::FoundWithout(Program::Once, 1, 5, 1),
    Case::Found(Program::Once, 2),
    Case::FoundWithout(Program::Beside, 2, 10, 1),
    Case::FoundWithout(Program::Itself, 1, 5, 1),
    Case::Found(Program::Itself, 2),
];

impl Row for Case {
    fn text(&self, alloc: Global) -> Result<Vec<u8>, Halt> {
        let text = match *self {
            Case::Facts(program) => facts_text(alloc, whole(program))?,
            Case::Whole(program) => open_text(alloc, whole(program))?,
            Case::Points(member) => open_text(alloc, points(member))?,
            Case::Reach(program, fact, point) => open_text(alloc, reach(program, fact, point))?,
            Case::Found(program, read) => found_text(alloc, whole(program), read)?,
            Case::FoundWithout(program, fact, point, read) => {
                found_text(alloc, reach(program, fact, point), read)?
            }
        };
        Ok(text.into_bytes())
    }
}

fn whole(program: Program) -> Tables {
    Tables {
        program,
        member: Member::None,
        without: None,
    }
}

fn points(member: Member) -> Tables {
    Tables {
        program: Program::Arrays,
        member,
        without: None,
    }
}

fn reach(program: Program, fact: u32, point: u32) -> Tables {
    Tables {
        program,
        member: Member::None,
        without: Some(Spot { fact, point }),
    }
}

impl Member {
    fn title(self) -> &'static str {
        match self {
            Member::None => "",
            Member::Address => " without t0 0",
            Member::Item => " without t1 1",
            Member::OtherAddress => " without t3 2",
            Member::OtherItem => " without t4 3",
            Member::Kept => " without node 4 1",
            Member::OtherKept => " without node 4 3",
            Member::Read => " without t6 1",
            Member::OtherRead => " without t6 3",
            Member::Moved => " without t8 1",
            Member::OtherMoved => " without t8 3",
            Member::LastAddress => " without t10 2",
            Member::LastItem => " without t11 3",
            Member::LastMoved => " without t13 3",
        }
    }
}

fn titled(alloc: Global, tables: Tables) -> Result<String, Memory> {
    let mut text = String::new(alloc);
    write!(text, "{}{}", tables.program.title(), tables.member.title())?;
    if let Some(Spot { fact, point }) = tables.without {
        write!(text, " without fact {fact} at {point}")?;
    }
    Ok(text)
}

fn facts_text(alloc: Global, tables: Tables) -> Result<String, Halt> {
    let facts = tables.facts(alloc)?;
    let mut text = titled(alloc, tables)?;
    text.push_str(": facts")?;
    for fact in facts.pairs.as_slice() {
        write!(text, " {}-{}", fact.def, fact.leaf)?;
    }
    text.push('\n')?;
    Ok(text)
}

fn open_text(alloc: Global, tables: Tables) -> Result<String, Halt> {
    let opened = tables.opened(alloc)?;
    let mut text = titled(alloc, tables)?;
    match opened {
        None => writeln!(text, ": closed")?,
        Some(Broken { rule, point }) => {
            let rule = rule_name(rule);
            writeln!(text, ": {rule} at {}.{}", point.fun, point.at)?;
        }
    }
    Ok(text)
}

fn rule_name(rule: Rule) -> &'static str {
    match rule {
        Rule::Points => "Points",
        Rule::Reach => "Reach",
        _ => "another rule",
    }
}

fn found_text(alloc: Global, tables: Tables, read: u16) -> Result<String, Halt> {
    let found = tables.found(alloc, read)?;
    let mut text = titled(alloc, tables)?;
    write!(text, ": read {read} finds")?;
    for def in found.as_slice() {
        write!(text, " {def}")?;
    }
    text.push('\n')?;
    Ok(text)
}
