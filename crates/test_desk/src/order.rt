use std::alloc::{AllocError, Global};
use tac_ir::Size;

/// What a line asks for.
#[derive(Drop)]
pub enum Order {
    Begin(Size, Vec<i32>),
    Take(i32, u32),
    Give(u32),
    Int,
    Left,
    Fill(u32, u32),
    Pairs(u32, u32, u32),
    Unknown,
}

/// The order of a line.
pub fn order_of(alloc: Global, line: &str) -> Result<Order, AllocError> {
    let words: Vec<&str> = line.split(' ').collect(alloc)?;
    let order = match words.as_slice() {
        ["small", numbers @ ..] => Order::Begin(Size::Small, numbers_of(alloc, numbers)?),
        ["large", numbers @ ..] => Order::Begin(Size::Large, numbers_of(alloc, numbers)?),
        ["int"] => Order::Int,
        ["left"] => Order::Left,
        ["give", word] => match word.parse::<u32>() {
            Ok(word) => Order::Give(word),
            Err(_) => Order::Unknown,
        },
        ["take", count, words] => match (count.parse::<i32>(), words.parse::<u32>()) {
            (Ok(count), Ok(words)) => Order::Take(count, words),
            _ => Order::Unknown,
        },
        ["fill", count, words] => match (count.parse::<u32>(), words.parse::<u32>()) {
            (Ok(count), Ok(words)) => Order::Fill(count, words),
            _ => Order::Unknown,
        },
        ["pairs", count, word, words] => pairs_of(count, word, words),
        _ => Order::Unknown,
    };
    Ok(order)
}

fn pairs_of(count: &str, word: &str, words: &str) -> Order {
    match (
        count.parse::<u32>(),
        word.parse::<u32>(),
        words.parse::<u32>(),
    ) {
        (Ok(count), Ok(word), Ok(words)) => Order::Pairs(count, word, words),
        _ => Order::Unknown,
    }
}

// The numbers that are numbers.
fn numbers_of(alloc: Global, words: &[&str]) -> Result<Vec<i32>, AllocError> {
    let mut numbers = Vec::new(alloc);
    for word in words {
        if let Ok(number) = word.parse::<i32>() {
            numbers.push(number)?;
        }
    }
    Ok(numbers)
}
