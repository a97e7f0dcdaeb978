//! The program: it hands its words, the files and standard output to the top call, and ends with that call's status.
#![tactic(auto)]

use dfi_io::{Console, Folder};
use dfi_top::front;
use std::process::ExitCode;
use std::rt::Env;
use std::{env, io};

// The words after the program's name.
fn words_of<R: Env + AllocGlobal>(rt: &R) -> io::Result<Vec<String>> {
    let words = env::args(rt)?.skip(1).collect(rt.alloc())?;
    Ok(words)
}

fn main(rt: HostRuntime) -> ExitCode {
    let alloc = rt.alloc();
    let words = words_of(&rt).unwrap_or_else(|_| Vec::new(alloc));
    let mut library = Folder::new(&rt);
    let mut out = Console::new(&rt);
    let ended = front(alloc, &words, &mut library, &mut out);
    ExitCode::from(ended.status)
}
