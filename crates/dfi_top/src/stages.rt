//! The stages of a replay: each loads a file, where there is one to load, and goes on with what it gave.

ghost use Rattle.std.specs.Prelude.{◌<◌, ◌≤◌, ◌^◌, length};
ghost use Rattle.word_table.specs.Tables.{CanRun};
ghost use Rattle.dfi_top.specs.Checked.{AllChecked};
ghost use Rattle.dfi_io.specs.Outside.{gave, IsLoad};
ghost use Rattle.dfi_base.specs.Limits.{file_limit, list_limit};
ghost use Rattle.dfi_top.specs.Reply.{RepliesToInput, RepliesToModule, RepliesToNumbers, RepliesToReplay, RepliesToSource, said_by};
ghost use Rattle.dfi_top.specs.tools.Stages.{Goes};

use crate::refusals::{refuse_input, refuse_load, refuse_source};
use crate::reply::Reply;
use crate::runs::{run_along_bytes, run_by_least};
use dfi_base::limits::{FILE_LIMIT, LIST_LIMIT};
use dfi_base::{Memory, Text};
use dfi_build::build;
use dfi_io::{Library, LoadFault};
use number_lists::{ListFault, read_input};
use std::alloc::Global;
use tac_ir::Module;

/// What the words of a replay name.
#[derive(Drop)]
pub struct Replay {
    pub file: Text,
    pub input: Text,
    pub names: Option<Text>,
    pub budget: u64,
}

// One load of a file.
fn fetch<L: Library>(
    alloc: Global,
    name: &Text,
    limit: u64,
    lib: &mut L,
) -> Result<Vec<u8>, LoadFault>
    ensures { IsLoad L.tells (record { name = name.now; limit = limit; gave = gave result }) lib.old lib.new }
{
    lib.load(alloc, name.bytes(), limit)
}

// The run on these numbers, along the names in a file where one is named.
fn reply_to_numbers<L: Library>(
    alloc: Global,
    m: &Module,
    input: &[i32],
    names: &Option<Text>,
    budget: u64,
    lib: &mut L,
) -> Result<Reply, Memory>
    requires runs { CanRun m.now }
    requires checked { AllChecked m.now }
    requires few { length input.now < 2 ^ 31 }
    ensures { Goes said_by L.tells (RepliesToNumbers m.now input.now budget names.now) lib.old lib.new result }
{
    let Some(name) = names else {
        return run_by_least(alloc, m, input, budget);
    };
    match fetch(alloc, name, LIST_LIMIT, lib) {
        Ok(bytes) => run_along_bytes(alloc, m, input, budget, &bytes),
        Err(fault) => refuse_load(alloc, name.bytes(), fault),
    }
}

// What the bytes of an input come to.
fn reply_to_input<L: Library>(
    alloc: Global,
    replay: &Replay,
    m: &Module,
    bytes: &[u8],
    lib: &mut L,
) -> Result<Reply, Memory>
    requires runs { CanRun m.now }
    requires checked { AllChecked m.now }
    requires short { length bytes.now ≤ list_limit }
    ensures { Goes said_by L.tells (RepliesToInput replay.now m.now bytes.now) lib.old lib.new result }
{
    match read_input(alloc, bytes) {
        Ok(numbers) => reply_to_numbers(alloc, m, &numbers, &replay.names, replay.budget, lib),
        Err(ListFault::Refused { at }) => refuse_input(alloc, at),
        Err(ListFault::Memory) => Err(Memory),
    }
}

// The run of a module on the input in a file.
fn reply_to_module<L: Library>(
    alloc: Global,
    replay: &Replay,
    m: &Module,
    lib: &mut L,
) -> Result<Reply, Memory>
    requires runs { CanRun m.now }
    requires checked { AllChecked m.now }
    ensures { Goes said_by L.tells (RepliesToModule replay.now m.now) lib.old lib.new result }
{
    match fetch(alloc, &replay.input, LIST_LIMIT, lib) {
        Ok(bytes) => reply_to_input(alloc, replay, m, &bytes, lib),
        Err(fault) => refuse_load(alloc, replay.input.bytes(), fault),
    }
}

// What the bytes of a source come to.
fn reply_to_source<L: Library>(
    alloc: Global,
    replay: &Replay,
    source: &[u8],
    lib: &mut L,
) -> Result<Reply, Memory>
    requires short { length source.now ≤ file_limit }
    ensures { Goes said_by L.tells (RepliesToSource replay.now source.now) lib.old lib.new result }
{
    match build(alloc, source) {
        Ok(module) => reply_to_module(alloc, replay, &module, lib),
        Err(fault) => refuse_source(alloc, source, &fault),
    }
}

/// The run of the source in a file.
pub fn reply_to_replay<L: Library>(
    alloc: Global,
    replay: &Replay,
    lib: &mut L,
) -> Result<Reply, Memory>
    ensures { Goes said_by L.tells (RepliesToReplay replay.now) lib.old lib.new result }
{
    match fetch(alloc, &replay.file, FILE_LIMIT, lib) {
        Ok(source) => reply_to_source(alloc, replay, &source, lib),
        Err(fault) => refuse_load(alloc, replay.file.bytes(), fault),
    }
}
