use dfi_base::Memory;
use std::alloc::Global;
use tac_thread::Want;

/// What an event with a value is answered that reads no link.
const ANSWER: u32 = 9;

/// What answers the events of a run: the links that were written, and one that is read in place of the first.
#[derive(Drop)]
pub struct Desk {
    links: Vec<u32>,
    wrong: Option<u32>,
}

impl Desk {
    /// A desk with no links yet.
    pub fn new(alloc: Global, wrong: Option<u32>) -> Desk {
        Desk {
            links: Vec::new(alloc),
            wrong,
        }
    }

    /// The value that an event is answered. The read of a link finds the newest one.
    pub fn value(&mut self, want: Want<u32>) -> Result<u32, Memory> {
        match want {
            Want::Push { def, .. } => {
                self.links.push(def.0 as u32)?;
                Ok(0)
            }
            Want::Pop { .. } => {
                let link = self.links.pop().unwrap_or(0);
                Ok(self.wrong.take().unwrap_or(link))
            }
            _ => Ok(ANSWER),
        }
    }
}
