use crate::row::{Order, Program, Row, Who};

const WORD_20: Order = Order::Write {
    def: 3,
    word: 20,
    value: 3,
};

const WORD_21: Order = Order::Write {
    def: 3,
    word: 21,
    value: 5,
};

const BEHIND_ITS_BOUND: Order = Order::Write {
    def: 4,
    word: 20,
    value: 9,
};

const HELD: [(Who, Order); 5] = [
    (Who::First, Order::Hold { lock: 4 }),
    (Who::Second, WORD_20),
    (Who::Second, WORD_21),
    (Who::First, Order::Release),
    (Who::Second, WORD_20),
];

const ALARM: [(Who, Order); 6] = [
    (Who::Root, WORD_20),
    (Who::Root, BEHIND_ITS_BOUND),
    (Who::Root, Order::Read { read: 1, word: 20 }),
    (Who::Root, Order::In),
    (Who::Root, Order::Out { value: 9 }),
    (Who::Second, WORD_20),
];

const DESK_HELD: [(Who, Order); 6] = [
    (Who::First, Order::Hold { lock: 16 }),
    (Who::Second, Order::New { count: 1 }),
    (Who::Second, Order::In),
    (Who::First, Order::Release),
    (Who::Second, Order::New { count: 1 }),
    (Who::First, Order::In),
];

const BLOCKS: [(Who, Order); 10] = [
    (Who::Root, Order::New { count: 1 }),
    (Who::Root, Order::New { count: 3 }),
    (Who::Root, Order::New { count: 0 }),
    (Who::Root, Order::Free { word: 8193 }),
    (Who::Root, Order::New { count: 2 }),
    (Who::Root, Order::Free { word: 0 }),
    (Who::Root, Order::Free { word: 8192 }),
    (Who::Root, Order::New { count: 1 }),
    (Who::Root, Order::New { count: 30000 }),
    (Who::Root, Order::Left),
];

const BLOCKS_BY_TWO: [(Who, Order); 8] = [
    (Who::First, Order::New { count: 1 }),
    (Who::Second, Order::New { count: 1 }),
    (Who::First, Order::Free { word: 8193 }),
    (Who::Second, Order::Free { word: 8192 }),
    (Who::First, Order::New { count: 2 }),
    (Who::Second, Order::New { count: 1 }),
    (Who::First, Order::New { count: -1 }),
    (Who::Second, Order::In),
];

const NO_BLOCK: [(Who, Order); 3] = [
    (Who::First, Order::New { count: 2 }),
    (Who::Second, Order::Free { word: 8193 }),
    (Who::First, Order::Free { word: 8192 }),
];

const NUMBERS: [(Who, Order); 6] = [
    (Who::First, Order::Left),
    (Who::First, Order::In),
    (Who::Second, Order::In),
    (Who::Second, Order::Left),
    (Who::First, Order::In),
    (Who::Root, Order::Left),
];

const SPENT: [(Who, Order); 4] = [
    (Who::Root, Order::New { count: 1 }),
    (Who::Root, Order::New { count: 1 }),
    (Who::First, Order::In),
    (Who::Second, Order::Free { word: 8192 }),
];

static WORDS: [Row; 3] = [
    Row {
        title: "a lock is held",
        program: Program::Neighbour,
        large: false,
        input: &[],
        budget: 10,
        steps: &HELD,
    },
    Row {
        title: "a lock is held, and the budget is 1",
        program: Program::Neighbour,
        large: false,
        input: &[],
        budget: 1,
        steps: &HELD,
    },
    Row {
        title: "an alarm halts",
        program: Program::Neighbour,
        large: false,
        input: &[],
        budget: 10,
        steps: &ALARM,
    },
];

static DESKS: [Row; 9] = [
    Row {
        title: "the desk is held",
        program: Program::Reusing,
        large: false,
        input: &[7],
        budget: 10,
        steps: &DESK_HELD,
    },
    Row {
        title: "blocks",
        program: Program::Reusing,
        large: false,
        input: &[],
        budget: 20,
        steps: &BLOCKS,
    },
    Row {
        title: "blocks in the large memory",
        program: Program::Reusing,
        large: true,
        input: &[],
        budget: 20,
        steps: &BLOCKS,
    },
    Row {
        title: "blocks of two passes",
        program: Program::Reusing,
        large: false,
        input: &[],
        budget: 20,
        steps: &BLOCKS_BY_TWO,
    },
    Row {
        title: "blocks of two passes in the large memory",
        program: Program::Reusing,
        large: true,
        input: &[],
        budget: 20,
        steps: &BLOCKS_BY_TWO,
    },
    Row {
        title: "no block begins here",
        program: Program::Reusing,
        large: true,
        input: &[],
        budget: 20,
        steps: &NO_BLOCK,
    },
    Row {
        title: "numbers of the input",
        program: Program::Reusing,
        large: false,
        input: &[7, -2],
        budget: 20,
        steps: &NUMBERS,
    },
    Row {
        title: "numbers of the input in the large memory",
        program: Program::Reusing,
        large: true,
        input: &[7, -2],
        budget: 20,
        steps: &NUMBERS,
    },
    Row {
        title: "the budget is 1",
        program: Program::Reusing,
        large: false,
        input: &[7],
        budget: 1,
        steps: &SPENT,
    },
];

pub fn rows_of_words() -> &'static [Row] {
    &WORDS
}

pub fn rows_of_desks() -> &'static [Row] {
    &DESKS
}
