//! A plain reader: patterns for the lines, tried one after another. It takes it that no key comes near the greatest.

use crate::patterns::{Seen, fit, fit_any};

/// The place that fails.
pub type Read<T> = Result<T, usize>;

const SIZES: [&str; 2] = ["dfimod 2\n", "dfimod 3\n"];

const SHAPES: [&str; 4] = ["int\n", "ptr\n", "array # #\n", "struct{ #}\n"];

const LINES: [&str; 47] = [
    "# const t# ~\n",
    "# null t#\n",
    "# un t# neg t#\n",
    "# un t# not t#\n",
    "# un t# com t#\n",
    "# bin t# add t# t#\n",
    "# bin t# sub t# t#\n",
    "# bin t# mul t# t#\n",
    "# bin t# and t# t#\n",
    "# bin t# or t# t#\n",
    "# bin t# xor t# t#\n",
    "# bin t# shl t# t#\n",
    "# bin t# shr t# t#\n",
    "# bin t# lt t# t#\n",
    "# bin t# gt t# t#\n",
    "# bin t# le t# t#\n",
    "# bin t# ge t# t#\n",
    "# bin t# eq t# t#\n",
    "# bin t# ne t# t#\n",
    "# div t# quo t# t#\n",
    "# div t# rem t# t#\n",
    "# addr t# g#{.#}\n",
    "# addr t# l#{.#}\n",
    "# field t# t# # #\n",
    "# decay t# t# #\n",
    "# index t# t# t# #\n",
    "# get t# g#{.#} #\n",
    "# get t# l#{.#} #\n",
    "# load t# t# #\n",
    "# set g#{.#} t# #\n",
    "# set l#{.#} t# #\n",
    "# store t# t# #\n",
    "# same t# eq t# t#\n",
    "# same t# ne t# t#\n",
    "# new t# t# #\n",
    "# free t#\n",
    "# in t#\n",
    "# left t#\n",
    "# out t#\n",
    "# call t# # #{ t#}\n",
    "# ret t#\n",
    "# ret t# #\n",
    "# jump #\n",
    "# test t# # #\n",
    "# turn\n",
    "# fork #{ #}\n",
    "# end\n",
];

const SETS: [&str; 4] = [
    "checked\n",
    "checked #{ <}\n",
    "removed\n",
    "removed #{ <}\n",
];

const NO_KEY: Seen = Seen {
    least: (0, 0),
    numbers: [0; 5],
};

/// Which keys of points may come: temporaries from a least one on, as long as there is no node, and nodes from a least one on.
#[derive(Clone, Copy)]
struct Order {
    temp: Option<(u64, u64)>,
    node: u64,
}

/// The number in a line.
fn count(pattern: &str, text: &[u8], at: usize) -> Read<(u64, usize)> {
    let (seen, end) = fit(pattern.as_bytes(), text, at, NO_KEY)?;
    let [many, ..] = seen.numbers;
    Ok((many, end))
}

/// So many lines.
fn lines(patterns: &[&str], many: u64, text: &[u8], start: usize) -> Read<usize> {
    let mut at = start;
    for _ in 0..many {
        let (_, end) = fit_any(patterns, text, at, NO_KEY)?;
        at = end;
    }
    Ok(at)
}

/// How many lines there are, and they.
fn section(name: &str, patterns: &[&str], text: &[u8], at: usize) -> Read<usize> {
    let (many, end) = count(name, text, at)?;
    lines(patterns, many, text, end)
}

fn function(text: &[u8], at: usize) -> Read<usize> {
    let (seen, end) = fit(b"function # # # #\n", text, at, NO_KEY)?;
    let [_, code, vars, ..] = seen.numbers;
    let end = lines(&["var #\n"], vars, text, end)?;
    lines(&LINES, code, text, end)
}

fn functions(text: &[u8], start: usize) -> Read<usize> {
    let (many, end) = count("functions #\n", text, start)?;
    let (_, mut at) = count("main #\n", text, end)?;
    for _ in 0..many {
        at = function(text, at)?;
    }
    Ok(at)
}

/// The members of a row.
fn members(text: &[u8], at: usize) -> Read<usize> {
    let (_, end) = fit(b"#{ <}\n", text, at, NO_KEY)?;
    Ok(end)
}

fn temp_row(text: &[u8], at: usize, least: (u64, u64)) -> Read<(Order, usize)> {
    let (seen, end) = fit(b"temp A B ", text, at, Seen::from_key(least))?;
    let [temp, fun, ..] = seen.numbers;
    let order = Order {
        temp: Some((fun, temp.saturating_add(1))),
        node: 0,
    };
    Ok((order, members(text, end)?))
}

fn node_row(text: &[u8], at: usize, least: u64) -> Read<(Order, usize)> {
    let (seen, end) = fit(b"node A ", text, at, Seen::from_key((least, 0)))?;
    let [node, ..] = seen.numbers;
    let order = Order {
        temp: None,
        node: node.saturating_add(1),
    };
    Ok((order, members(text, end)?))
}

fn points_row(text: &[u8], at: usize, order: Order) -> Read<(Order, usize)> {
    let temp = match order.temp {
        Some(least) => temp_row(text, at, least),
        None => Err(at),
    };
    match (temp, node_row(text, at, order.node)) {
        (Ok(found), _) => Ok(found),
        (_, Ok(found)) => Ok(found),
        (Err(first), Err(second)) => Err(first.max(second)),
    }
}

fn points(text: &[u8], start: usize) -> Read<usize> {
    let (many, mut at) = count("points #\n", text, start)?;
    let mut order = Order {
        temp: Some((0, 0)),
        node: 0,
    };
    for _ in 0..many {
        let (next, end) = points_row(text, at, order)?;
        order = next;
        at = end;
    }
    Ok(at)
}

fn reach(text: &[u8], start: usize) -> Read<usize> {
    let (many, mut at) = count("reach #\n", text, start)?;
    let mut least = (0, 0);
    for _ in 0..many {
        let (seen, end) = fit(b"at A B ", text, at, Seen::from_key(least))?;
        let [index, fun, ..] = seen.numbers;
        least = (fun, index.saturating_add(1));
        at = members(text, end)?;
    }
    Ok(at)
}

fn code(text: &[u8], start: usize) -> Read<usize> {
    let at = section("shapes #\n", &SHAPES, text, start)?;
    let at = section("globals #\n", &["# ~ #\n"], text, at)?;
    let at = section("sites #\n", &["# #\n"], text, at)?;
    functions(text, at)
}

/// Where the text fails as that of a module, if it does.
pub fn fault(text: &[u8]) -> Read<()> {
    let (_, at) = fit_any(&SIZES, text, 0, NO_KEY)?;
    let at = code(text, at)?;
    let at = section("definitions #\n", &["class #\n"], text, at)?;
    let at = section("reads #\n", &SETS, text, at)?;
    let at = reach(text, points(text, at)?)?;
    let (_, end) = fit(b"end\n", text, at, NO_KEY)?;
    if end == text.len() { Ok(()) } else { Err(end) }
}
