ghost use Rattle.std.specs.Prelude.{◌≡◌, [], IfOk};

use dfi_base::Memory;
use std::alloc::Global;

/// A file of a case, while its lines are read.
#[derive(Drop)]
pub struct OpenFile {
    pub name: String,
    pub bytes: Vec<u8>,
}

impl OpenFile {
    /// A file with no bytes yet.
    pub fn new(alloc: Global, name: &str) -> Result<OpenFile, Memory>
        ensures { IfOk result (λ file. file.bytes.items ≡ []) }
    {
        Ok(OpenFile {
            name: String::from_str(alloc, name)?,
            bytes: Vec::new(alloc),
        })
    }

    /// Takes one line of the table and says whether it knows it. `\repeat N TEXT` is the text N times, with no newline, and
    /// `\bytes N ..` is the bytes of these numbers. A line that begins otherwise is a line of the file, with its newline.
    pub fn take_line(&mut self, line: &str) -> Result<bool, Memory> {
        if !line.starts_with('\\') {
            self.bytes.extend_from_slice(line.as_bytes())?;
            self.bytes.push(b'\n')?;
            return Ok(true);
        }
        match line.split_once(' ') {
            Some(("\\repeat", rest)) => self.repeat(rest),
            Some(("\\bytes", rest)) => self.put_bytes(rest),
            _ => Ok(false),
        }
    }

    fn repeat(&mut self, rest: &str) -> Result<bool, Memory> {
        let Some((count, text)) = rest.split_once(' ') else {
            return Ok(false);
        };
        let Ok(count) = count.parse::<u32>() else {
            return Ok(false);
        };
        for _ in 0..count {
            self.bytes.extend_from_slice(text.as_bytes())?;
        }
        Ok(true)
    }

    fn put_bytes(&mut self, rest: &str) -> Result<bool, Memory> {
        for number in rest.split(' ') {
            let Ok(byte) = number.parse::<u8>() else {
                return Ok(false);
            };
            self.bytes.push(byte)?;
        }
        Ok(true)
    }
}
