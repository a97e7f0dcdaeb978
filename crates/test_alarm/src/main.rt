//! The top call over real files and the standard output, on a program whose run ends by an alarm. The status must come out.
#![tactic(auto)]

use dfi_io::{Console, Folder};
use dfi_top::front;
use std::alloc::AllocError;
use std::process::ExitCode;

const NO_WORDS: u8 = 100;

// Replays a program that overruns an array.
fn replay(rt: &HostRuntime) -> Result<u8, AllocError> {
    let alloc = rt.alloc();
    let mut words = Vec::new(alloc);
    for word in ["replay", "overrun.c", "empty"] {
        words.push(String::from_str(alloc, word)?)?;
    }
    let ended = front(alloc, &words, &mut Folder::new(rt), &mut Console::new(rt));
    Ok(ended.status)
}

fn main(rt: HostRuntime) -> ExitCode {
    ExitCode::from(replay(&rt).unwrap_or(NO_WORDS))
}
