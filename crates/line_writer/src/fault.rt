//! Why a text is not written.

ghost use Rattle.std.specs.Prelude.{◌≡◌, ◌<◌, ◌≤◌, OnOk, OnErr, length};
ghost use Rattle.dfi_base.specs.Limits.{file_limit};
ghost use Rattle.line_writer.specs.declared.fault.WriteFault.{WriteFault};

use dfi_base::Memory;
use dfi_base::limits::FILE_LIMIT;
use thiserror::Error;

/// Why a text is not written.
#[derive(Debug, Drop, Error)]
pub enum WriteFault {
    #[error("the text is longer than the limit")]
    Long,
    #[error("out of memory")]
    Memory,
}

impl From<Memory> for WriteFault {
    ghost from_gives = { λ _ e. e ≡ WriteFault.Memory };

    fn from(_: Memory) -> WriteFault {
        WriteFault::Memory
    }
}

/// Gives up once a text is longer than a file may be.
pub fn within_limit(text: &str) -> Result<(), WriteFault>
    ensures within { OnOk result (length text.now ≤ file_limit) }
    ensures long { OnErr result (file_limit < length text.now) }
{
    if text.len() as u64 > FILE_LIMIT {
        return Err(WriteFault::Long);
    }
    Ok(())
}
