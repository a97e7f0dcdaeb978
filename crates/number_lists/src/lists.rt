//! Whole lists.

ghost use Rattle.std.specs.Prelude.{◌≡◌, ◌<◌, ◌≤◌, ◌^◌, length, IfOk};
ghost use Rattle.number_lists.specs.Lists.{Answers, int_of, name_of};
ghost use Rattle.number_lists.specs.tools.Scanning.{int_form, int_value, most_of};

use crate::fault::ListFault;
use crate::scan::{Form, Number, State, ended, step};
use dfi_base::Name;
use std::alloc::Global;

/// Numbers of an `int`.
const INTS: Form = Form {
    most: 2_147_483_647,
    most_below: Some(2_147_483_648),
};

/// Names of threads.
const NAMES: Form = Form {
    most: u64::MAX,
    most_below: None,
};

fn int_of(number: Number) -> i32
    requires { number.magnitude ≤ most_of int_form number.negative }
    ensures { result ≡ int_value number }
{
    let magnitude = number.magnitude as i64;
    let value = if number.negative {
        -magnitude
    } else {
        magnitude
    };
    value as i32
}

/// The numbers of an input: decimal, of the range of an `int`, each with a minus sign or none and with leading zeros or none,
/// with blanks (space, tab, newline, carriage return) between them and at both ends.
pub fn read_input(alloc: Global, bytes: &[u8]) -> Result<Vec<i32>, ListFault>
    requires { length bytes.now < 2 ^ 31 }
    ensures list { Answers (λ numbers. numbers.items) int_of bytes.now result }
    ensures few { IfOk result (λ numbers. length numbers.items ≤ length bytes.now) }
{
    let mut numbers = Vec::new(alloc);
    let mut state = State::Between;
    for (at, byte) in bytes.iter().enumerate() {
        let Some(next) = step(INTS, state, *byte) else {
            return Err(ListFault::Refused { at: at as u64 });
        };
        if let Some(number) = ended(state, next) {
            numbers.push(int_of(number))?;
        }
        state = next;
    }
    match state {
        State::Between => Ok(numbers),
        State::Signed => Err(ListFault::Refused {
            at: bytes.len() as u64,
        }),
        State::Within(number) => {
            numbers.push(int_of(number))?;
            Ok(numbers)
        }
    }
}

/// The names of a list: decimal, of 64 bits, with no sign, and otherwise like the numbers of an input.
pub fn read_names(alloc: Global, bytes: &[u8]) -> Result<Vec<Name>, ListFault>
    requires { length bytes.now < 2 ^ 31 }
    ensures list { Answers (λ names. names.items) name_of bytes.now result }
    ensures few { IfOk result (λ names. length names.items ≤ length bytes.now) }
{
    let mut names = Vec::new(alloc);
    let mut state = State::Between;
    for (at, byte) in bytes.iter().enumerate() {
        let Some(next) = step(NAMES, state, *byte) else {
            return Err(ListFault::Refused { at: at as u64 });
        };
        if let Some(number) = ended(state, next) {
            names.push(Name(number.magnitude))?;
        }
        state = next;
    }
    match state {
        State::Between => Ok(names),
        State::Signed => Err(ListFault::Refused {
            at: bytes.len() as u64,
        }),
        State::Within(number) => {
            names.push(Name(number.magnitude))?;
            Ok(names)
        }
    }
}
