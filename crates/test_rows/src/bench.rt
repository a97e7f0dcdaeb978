use crate::lines::{chain, empty_rows, first_members, shown, wide};
use crate::orders::{Order, order_of};
use crate::rows::{ask, change};
use dfi_base::{Bits, Memory, Text};
use least_rows::{System, first_open, is_fitting, solve};
use sqlite_items::Items;
use std::alloc::Global;
use std::string::String;
use test_base::{Halt, Orders};

/// The table and the rules that the lines so far have made.
#[derive(Drop)]
pub struct Bench {
    rows: Vec<Bits>,
    system: System,
}

impl Orders for Bench {
    fn take_line(&mut self, alloc: Global, line: &str) -> Result<Vec<u8>, Halt> {
        let order = order_of(alloc, line)?;
        let answer = self.answer(alloc, line, order)?;
        let text = format!(in alloc; "{line}: {answer}\n")?;
        Ok(text.into_bytes())
    }
}

impl Bench {
    pub fn new(alloc: Global) -> Bench {
        Bench {
            rows: Vec::new(alloc),
            system: no_rules(alloc, 0),
        }
    }

    fn answer(&mut self, alloc: Global, line: &str, order: Order) -> Result<String, Memory> {
        match order {
            Order::Begin { count, width } => {
                self.rows = empty_rows(alloc, count, width)?;
                self.system = no_rules(alloc, width);
                said(alloc, "a table")
            }
            Order::Mask(members) => {
                let mask = row_of(alloc, self.system.width, members.as_slice())?;
                self.system.masks.push(mask)?;
                said(alloc, "a mask")
            }
            Order::Rule(rule) => {
                self.system.rules.push(rule)?;
                said(alloc, "a rule")
            }
            order => self.plain_answer(alloc, line, &order),
        }
    }

    fn plain_answer(&mut self, alloc: Global, line: &str, order: &Order) -> Result<String, Memory> {
        match order {
            Order::Solve => self.solve(alloc),
            Order::Open => self.open(alloc),
            Order::Show => shown(alloc, self.rows.as_slice()),
            Order::Change(order) => match change(alloc, &mut self.rows, *order)? {
                Some(true) => said(alloc, "changed"),
                Some(false) => said(alloc, "same"),
                None => said(alloc, "no such row"),
            },
            Order::Ask(order) => answered(alloc, ask(self.rows.as_slice(), *order)),
            Order::Chain(rules) => solved(alloc, &chain(alloc, *rules)?, rules.saturating_add(1)),
            Order::Wide { rows, width, rules } => {
                solved(alloc, &wide(alloc, *rows, *width, *rules)?, *rows)
            }
            Order::Text => text_of(alloc, line),
            _ => said(alloc, "no order"),
        }
    }

    fn solve(&mut self, alloc: Global) -> Result<String, Memory> {
        if !is_fitting(&self.system, self.rows.as_slice()) {
            return said(alloc, "does not fit");
        }
        let start = std::mem::replace(&mut self.rows, Vec::new(alloc));
        self.rows = solve(alloc, &self.system, start)?;
        shown(alloc, self.rows.as_slice())
    }

    fn open(&mut self, alloc: Global) -> Result<String, Memory> {
        if !is_fitting(&self.system, self.rows.as_slice()) {
            return said(alloc, "does not fit");
        }
        match first_open(&self.system, self.rows.as_slice()) {
            Some(rule) => Ok(format!(in alloc; "rule {rule}")?),
            None => said(alloc, "closed"),
        }
    }
}

fn no_rules(alloc: Global, width: u32) -> System {
    System {
        width,
        masks: Items::new(alloc),
        rules: Items::new(alloc),
    }
}

fn said(alloc: Global, text: &str) -> Result<String, Memory> {
    Ok(format!(in alloc; "{text}")?)
}

fn answered(alloc: Global, answer: Option<u32>) -> Result<String, Memory> {
    match answer {
        Some(number) => Ok(format!(in alloc; "{number}")?),
        None => said(alloc, "no such row"),
    }
}

// How many members the first row of the least table above an empty one has.
fn solved(alloc: Global, system: &System, rows: u32) -> Result<String, Memory> {
    let start = empty_rows(alloc, rows, system.width)?;
    if !is_fitting(system, start.as_slice()) {
        return said(alloc, "does not fit");
    }
    let answer = solve(alloc, system, start)?;
    let members = first_members(alloc, answer.as_slice())?;
    Ok(format!(in alloc; "{members}")?)
}

fn row_of(alloc: Global, width: u32, members: &[u32]) -> Result<Bits, Memory> {
    let mut row = Bits::new(alloc, width)?;
    for member in members {
        if *member < row.len() {
            row.put(*member, true);
        }
    }
    Ok(row)
}

fn text_of(alloc: Global, line: &str) -> Result<String, Memory> {
    let text = Text::new(alloc, line.as_bytes())?;
    let mut shown = String::new(alloc);
    for byte in text.bytes() {
        write!(shown, "{byte} ")?;
    }
    Ok(shown)
}
