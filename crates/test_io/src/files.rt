use crate::order::FileOrder;
use dfi_io::{Folder, Library, LoadFault, Shelf};
use std::alloc::Global;
use std::rt::Files;
use test_base::Halt;

/// A shelf, and the files of the system.
#[derive(Drop)]
pub struct Libraries<R: Files + Drop> {
    pub shelf: Shelf,
    pub folder: Folder<R>,
}

impl<R: Files + Drop> Libraries<R> {
    /// What the order answers.
    pub fn answer(&mut self, alloc: Global, order: FileOrder) -> Result<String, Halt> {
        match order {
            FileOrder::Load(name, limit) => {
                let loaded = self.shelf.load(alloc, name.as_bytes(), limit);
                bytes_text(alloc, &loaded)
            }
            FileOrder::LoadFile(name, limit) => {
                let loaded = self.folder.load(alloc, name.as_bytes(), limit);
                count_text(alloc, &loaded)
            }
            FileOrder::LoadByte(byte, limit) => {
                let loaded = self.folder.load(alloc, &[byte], limit);
                count_text(alloc, &loaded)
            }
            FileOrder::Begin => {
                self.shelf = Shelf::new(alloc);
                Ok(format!(in alloc; "empty")?)
            }
            FileOrder::Put(name, bytes) => {
                self.shelf.put(name.as_bytes(), bytes.as_bytes())?;
                Ok(format!(in alloc; "put")?)
            }
            FileOrder::Plan(call) => {
                self.shelf.fail_at(call)?;
                Ok(format!(in alloc; "planned")?)
            }
        }
    }
}

fn bytes_text(alloc: Global, loaded: &Result<Vec<u8>, LoadFault>) -> Result<String, Halt> {
    match loaded {
        Ok(bytes) => {
            let text = String::from_utf8_lossy(alloc, bytes.as_slice())?;
            Ok(format!(in alloc; "\"{text}\"")?)
        }
        Err(fault) => fault_text(alloc, *fault),
    }
}

fn count_text(alloc: Global, loaded: &Result<Vec<u8>, LoadFault>) -> Result<String, Halt> {
    match loaded {
        Ok(bytes) => {
            let count = bytes.len();
            let marks = bytes.iter().filter(|byte| **byte == b'x').count();
            Ok(format!(in alloc; "{count} bytes, {marks} of them x")?)
        }
        Err(fault) => fault_text(alloc, *fault),
    }
}

fn fault_text(alloc: Global, fault: LoadFault) -> Result<String, Halt> {
    match fault {
        LoadFault::Long => Ok(format!(in alloc; "too long")?),
        LoadFault::Failed => Ok(format!(in alloc; "failed")?),
        LoadFault::Memory => Err(Halt::Memory),
    }
}
