ghost use Rattle.std.specs.Prelude.{◌<◌, map, string_bytes};
ghost use Rattle.dfi_words.specs.Reads.{Reads};
ghost use Rattle.dfi_top.specs.Reply.{RepliesToJob, said_by};
ghost use Rattle.dfi_top.specs.tools.Stages.{Goes, RepliesToWords};
ghost use Rattle.dfi_top.specs.TopCall.{HandsOver, TopCall};

use crate::refusals::{refuse_words, write_program};
use crate::reply::Reply;
use crate::saying::no_journal;
use crate::stages::{Replay, reply_to_replay};
use dfi_base::Memory;
use dfi_io::{Library, Sink};
use dfi_words::{Job, WordFault, read_words};
use std::alloc::Global;
use tac_ir::Journal;

const WRITE_FAILED: u8 = 7;

const NO_MEMORY: u8 = 8;

/// How a call ended: its status, and the journal of its run. The journal has no entries and the
/// end `NoRun` where there was no run.
#[derive(Drop)]
pub struct Ended {
    pub status: u8,
    pub journal: Journal,
}

// What is said to a job.
fn reply_to_job<L: Library>(
    alloc: Global,
    words: &[String],
    job: Job,
    lib: &mut L,
) -> Result<Reply, Memory>
    requires { Reads (map string_bytes words.now) job }
    ensures { Goes said_by L.tells (RepliesToJob job) lib.old lib.new result }
{
    match job {
        Job::Replay {
            file,
            input,
            names,
            budget,
        } => {
            let replay = Replay {
                file,
                input,
                names,
                budget,
            };
            reply_to_replay(alloc, &replay, lib)
        }
        Job::Gen { n } => write_program(alloc, n),
        _ => refuse_words(alloc),
    }
}

// What is said to these words.
fn reply_to_words<L: Library>(alloc: Global, words: &[String], lib: &mut L) -> Result<Reply, Memory>
    ensures { RepliesToWords said_by L.tells (map string_bytes words.now) lib.old lib.new result }
{
    match read_words(alloc, words) {
        Ok(job) => reply_to_job(alloc, words, job, lib),
        Err(WordFault::Refused) => refuse_words(alloc),
        Err(WordFault::Memory) => Err(Memory),
    }
}

// Writes the text of a reply.
fn hand_over<K: Sink>(out: &mut K, reply: Reply) -> Ended
    ensures hands { HandsOver K.tells (said_by reply) out.old out.new result.status result.journal }
    ensures below { result.status < 8 }
{
    let status = match out.write(&reply.text) {
        Ok(()) => reply.status,
        Err(_) => WRITE_FAILED,
    };
    Ended {
        status,
        journal: reply.journal,
    }
}

/// Does what the words of a command line ask for: `replay FILE INPUT [NAMES] [--budget B]` runs the source in FILE on the input
/// in INPUT, along the names in NAMES or the least runnable ones, and `gen N` writes a program. The text that answers goes to
/// `out` in one write. The status is that of the text, 7 where the write failed, or 8 where memory was wanted, and then nothing
/// is written.
pub fn front<L: Library, K: Sink>(
    alloc: Global,
    words: &[String],
    lib: &mut L,
    out: &mut K,
) -> Ended
    ensures { TopCall L.tells K.tells (map string_bytes words.now)
        lib.old lib.new out.old out.new result.status result.journal }
{
    match reply_to_words(alloc, words, lib) {
        Ok(reply) => hand_over(out, reply),
        Err(Memory) => Ended {
            status: NO_MEMORY,
            journal: no_journal(alloc),
        },
    }
}
