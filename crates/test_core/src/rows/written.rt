use crate::journal::{Step, Written};
use dfi_base::DefNo;
use tac_ir::{End, Limit, Op, Stop};

const RUN: [Step; 2] = [
    Step::Write {
        at: 1,
        def: 3,
        word: 20,
        value: 3,
    },
    Step::Out(3),
];

const NEGATIVE: [Step; 2] = [Step::Out(-5), Step::Out(7)];

const OVERWRITTEN: [Step; 3] = [
    Step::Write {
        at: 1,
        def: 3,
        word: 20,
        value: 3,
    },
    Step::Write {
        at: 7,
        def: 4,
        word: 20,
        value: 9,
    },
    Step::Alarm {
        read: 1,
        word: 20,
        found: 1,
    },
];

const STARTED: [Step; 1] = [Step::Alarm {
    read: 3,
    word: 20,
    found: 1,
}];

const STRAY: [Step; 2] = [
    Step::Write {
        at: 1,
        def: 3,
        word: 20,
        value: 3,
    },
    Step::Alarm {
        read: 2,
        word: 21,
        found: 0,
    },
];

const RESERVED: [Step; 1] = [Step::Alarm {
    read: 1,
    word: 15,
    found: 0,
}];

const DIVIDING: [Step; 1] = [Step::Stops {
    at: 0,
    op: Op::Zero,
    stop: Stop::Divide,
}];

const OUTSIDE: [Step; 2] = [
    Step::Out(1),
    Step::Stops {
        at: 7,
        op: Op::Write {
            def: DefNo(4),
            word: 65536,
            value: 9,
        },
        stop: Stop::Address,
    },
];

const FREEING: [Step; 1] = [Step::Stops {
    at: 2,
    op: Op::Free { word: 8193 },
    stop: Stop::Free,
}];

static ROWS: [Written; 16] = [
    Written {
        title: "a run ends with the value of main",
        steps: &RUN,
        end: End::Done(0),
    },
    Written {
        title: "negative numbers",
        steps: &NEGATIVE,
        end: End::Done(-1),
    },
    Written {
        title: "a run is cut",
        steps: &RUN,
        end: End::Cut,
    },
    Written {
        title: "no run",
        steps: &[],
        end: End::NoRun,
    },
    Written {
        title: "the last write is by another definition",
        steps: &OVERWRITTEN,
        end: End::Alarm,
    },
    Written {
        title: "nothing but the start was written",
        steps: &STARTED,
        end: End::Alarm,
    },
    Written {
        title: "a word of no variable, and a set without members",
        steps: &STRAY,
        end: End::Alarm,
    },
    Written {
        title: "a reserved word",
        steps: &RESERVED,
        end: End::Alarm,
    },
    Written {
        title: "a division",
        steps: &DIVIDING,
        end: End::Trap,
    },
    Written {
        title: "an address behind the memory",
        steps: &OUTSIDE,
        end: End::Trap,
    },
    Written {
        title: "a free within a block",
        steps: &FREEING,
        end: End::Trap,
    },
    Written {
        title: "no room for a frame",
        steps: &[],
        end: End::Limit(Limit::Stack),
    },
    Written {
        title: "no room for a block",
        steps: &[],
        end: End::Limit(Limit::Heap),
    },
    Written {
        title: "too deep a fork",
        steps: &[],
        end: End::Limit(Limit::Depth),
    },
    Written {
        title: "an empty share",
        steps: &[],
        end: End::Limit(Limit::Share),
    },
    Written {
        title: "a budget",
        steps: &[],
        end: End::Limit(Limit::Budget),
    },
];

/// Journals that no run made, each with the end that it tells.
pub fn rows() -> &'static [Written] {
    &ROWS
}
