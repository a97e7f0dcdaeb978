use std::alloc::{AllocError, Global};

/// What a line asks for.
#[derive(Drop)]
pub enum Order<'a> {
    Files(FileOrder<'a>),
    Writes(WriteOrder<'a>),
    Unknown,
}

/// An order to a library.
#[derive(Drop, Clone, Copy)]
pub enum FileOrder<'a> {
    Begin,
    Put(&'a str, &'a str),
    Plan(u64),
    Load(&'a str, u64),
    LoadFile(&'a str, u64),
    /// The real file whose name is this one byte.
    LoadByte(u8, u64),
}

/// An order to a sink.
#[derive(Drop, Clone, Copy)]
pub enum WriteOrder<'a> {
    Begin(u64),
    Stop(u64, u64),
    Write(&'a str),
    Print(&'a str),
    Narrow(&'a str),
}

/// The order of a line.
pub fn order_of<'a>(alloc: Global, line: &'a str) -> Result<Order<'a>, AllocError> {
    let words: Vec<&'a str> = line.split(' ').collect(alloc)?;
    let order = match words.as_slice() {
        ["shelf"] => Order::Files(FileOrder::Begin),
        ["put", name, bytes] => Order::Files(FileOrder::Put(name, bytes)),
        ["put", name] => Order::Files(FileOrder::Put(name, "")),
        ["write", bytes] => Order::Writes(WriteOrder::Write(bytes)),
        ["print", bytes] => Order::Writes(WriteOrder::Print(bytes)),
        ["narrow", bytes] => Order::Writes(WriteOrder::Narrow(bytes)),
        ["narrow"] => Order::Writes(WriteOrder::Narrow("")),
        [word, number] => one_number(word, number),
        [word, name, number] => two_words(word, name, number),
        _ => Order::Unknown,
    };
    Ok(order)
}

fn one_number<'a>(word: &str, number: &str) -> Order<'a> {
    match (word, number.parse::<u64>()) {
        ("plan", Ok(call)) => Order::Files(FileOrder::Plan(call)),
        ("pad", Ok(room)) => Order::Writes(WriteOrder::Begin(room)),
        _ => Order::Unknown,
    }
}

fn two_words<'a>(word: &str, first: &'a str, number: &str) -> Order<'a> {
    let Ok(number) = number.parse::<u64>() else {
        return Order::Unknown;
    };
    if word == "byte" {
        return match first.parse::<u8>() {
            Ok(byte) => Order::Files(FileOrder::LoadByte(byte, number)),
            Err(_) => Order::Unknown,
        };
    }
    match (word, first.parse::<u64>()) {
        ("load", _) => Order::Files(FileOrder::Load(first, number)),
        ("file", _) => Order::Files(FileOrder::LoadFile(first, number)),
        ("stop", Ok(call)) => Order::Writes(WriteOrder::Stop(call, number)),
        _ => Order::Unknown,
    }
}
