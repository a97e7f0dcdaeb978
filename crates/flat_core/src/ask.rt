ghost use Rattle.std.specs.Prelude.{◌≡◌};
ghost use Rattle.path_law.specs.Asked.{op_of};
ghost use Rattle.path_law.specs.Replies.{reply_to};
ghost use Rattle.flat_core.specs.tools.Asked.{entry_of};

use dfi_base::{Name, Point};
use tac_ir::{Answer, Entry, Op};
use tac_thread::{FlatStack, FlatWords, Reply, Want};

/// The next event of a runnable thread: where it stands, its op, and the stack of its thread.
#[derive(Clone, Copy)]
pub struct Asked {
    pub point: Point,
    pub op: Op,
    pub stack: FlatStack,
}

impl Asked {
    /// The entry of this event, by a thread of this name, with its answer.
    pub fn entry(self, name: Name, answer: Answer) -> Entry
        ensures { result ≡ entry_of name.0 self answer }
    {
        Entry {
            name,
            point: self.point,
            op: self.op,
            answer,
        }
    }
}

/// The op of what a thread wants.
pub fn op_of(want: Want<u32>) -> Option<Op>
    ensures { result ≡ op_of want }
{
    Some(match want {
        Want::Read { read, word } => Op::Read { read, word },
        Want::Write { def, word, value } => Op::Write { def, word, value },
        Want::Same { a, b, ne } => Op::Same { a, b, ne },
        Want::New { site, count } => Op::New {
            site,
            count: count.cast_signed(),
        },
        Want::Free { word } => Op::Free { word },
        Want::In => Op::In,
        Want::Left => Op::Left,
        Want::Out { value } => Op::Out {
            value: value.cast_signed(),
        },
        Want::Call { fun } => Op::Call { fun },
        Want::Ret => Op::Ret,
        Want::Turn => Op::Turn,
        Want::Fork { branches } => Op::Fork { branches },
        Want::Zero => Op::Zero,
        Want::Push { def, word } => Op::Write {
            def,
            word,
            value: u32::from(def.0),
        },
        Want::Pop { read, word } => Op::Read { read, word },
        Want::Bad | Want::Waits | Want::Ended(_) => return None,
    })
}

/// The reply that tells a thread this answer, where it has one: what stops the run has none.
pub fn reply_to(answer: Answer) -> Option<Reply<FlatWords>>
    ensures { result ≡ reply_to answer }
{
    match answer {
        Answer::Unit => Some(Reply::<FlatWords>::Unit),
        Answer::Value(value) => Some(Reply::<FlatWords>::Value(value)),
        Answer::Stop(_) => None,
    }
}
