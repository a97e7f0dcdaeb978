//! A line against a pattern, byte by byte.
//!
//! In a pattern `#` is a number, `~` a number with a sign, `<` a number greater than the one before it in the line, `A` and `B` the numbers of a key
//! that is greater than the one before it, and what stands in `{` and `}` comes as often as its first byte does. All else is itself.

const GREATEST: u64 = 4_294_967_295;

/// More steps than any line of a table takes.
const STEPS: u32 = 1_000_000;

/// The numbers that bound those to come, and those that were read.
#[derive(Clone, Copy)]
pub struct Seen {
    /// The least key that may come.
    pub least: (u64, u64),
    /// The last five numbers of the line, the latest first.
    pub numbers: [u64; 5],
}

impl Seen {
    pub fn from_key(least: (u64, u64)) -> Seen {
        Seen {
            least,
            numbers: [0; 5],
        }
    }

    fn with(self, number: u64) -> Seen {
        let [a, b, c, d, _] = self.numbers;
        Seen {
            least: self.least,
            numbers: [number, a, b, c, d],
        }
    }
}

/// Some number from low to high begins with the digits of the value.
fn begins_some(value: u64, low: u64, high: u64) -> bool {
    if value == 0 {
        return low == 0;
    }
    let mut scale = 1_u64;
    for _ in 0..11 {
        let first = value.saturating_mul(scale);
        let last = first.saturating_add(scale.saturating_sub(1));
        if first <= high && last >= low {
            return true;
        }
        scale = scale.saturating_mul(10);
    }
    false
}

/// The number at this place and the place behind it, or the place that fails.
fn number(text: &[u8], at: usize, low: u64, high: u64) -> Result<(u64, usize), usize> {
    let mut value = 0_u64;
    let mut place = at;
    for byte in text.get(at..).unwrap_or(b"") {
        let leading = place > at && value == 0;
        if !byte.is_ascii_digit() || leading {
            break;
        }
        let more = value
            .saturating_mul(10)
            .saturating_add(u64::from(byte.saturating_sub(48)));
        if !begins_some(more, low, high) {
            return Err(place);
        }
        value = more;
        place = place.saturating_add(1);
    }
    if place == at || value < low {
        Err(place)
    } else {
        Ok((value, place))
    }
}

/// The place behind a number with a sign, or the place that fails.
fn signed(text: &[u8], at: usize) -> Result<usize, usize> {
    let read = match text.get(at) {
        Some(b'-') => number(text, at.saturating_add(1), 1, 2_147_483_648),
        _ => number(text, at, 0, 2_147_483_647),
    };
    match read {
        Ok((_, end)) => Ok(end),
        Err(place) => Err(place),
    }
}

/// The least number that a letter of a pattern takes.
fn least_of(letter: u8, seen: Seen) -> u64 {
    let [last, ..] = seen.numbers;
    match letter {
        b'<' => last.saturating_add(1),
        b'A' => seen.least.0,
        b'B' if last == seen.least.0 => seen.least.1,
        _ => 0,
    }
}

/// One letter of a pattern that is no brace.
fn fit_letter(letter: u8, text: &[u8], at: usize, seen: Seen) -> Result<(Seen, usize), usize> {
    match letter {
        b'#' | b'<' | b'A' | b'B' => {
            let (value, end) = number(text, at, least_of(letter, seen), GREATEST)?;
            Ok((seen.with(value), end))
        }
        b'~' => Ok((seen, signed(text, at)?)),
        byte => {
            if text.get(at) == Some(&byte) {
                Ok((seen, at.saturating_add(1)))
            } else {
                Err(at)
            }
        }
    }
}

/// The place of the brace that ends the one at this place.
fn closing(pattern: &[u8], open: usize) -> usize {
    for index in open..pattern.len() {
        if pattern[index] == b'}' {
            return index;
        }
    }
    pattern.len()
}

/// The place of the brace before this place.
fn opening(pattern: &[u8], close: usize) -> usize {
    let mut open = 0;
    for index in 0..close.min(pattern.len()) {
        if pattern[index] == b'{' {
            open = index;
        }
    }
    open
}

/// The step behind the brace at this one: into what it holds where its first byte comes, else past it.
fn behind_open(pattern: &[u8], open: usize, next: Option<&u8>) -> usize {
    let inside = open.saturating_add(1);
    if pattern.get(inside) == next {
        inside
    } else {
        closing(pattern, open).saturating_add(1)
    }
}

/// What the text at this place has by the pattern, and the place behind it; or the place that fails.
pub fn fit(
    pattern: &[u8],
    text: &[u8],
    start: usize,
    before: Seen,
) -> Result<(Seen, usize), usize> {
    let mut seen = before;
    let mut at = start;
    let mut step = 0_usize;
    for _ in 0..STEPS {
        let Some(letter) = pattern.get(step) else {
            return Ok((seen, at));
        };
        match *letter {
            b'{' => step = behind_open(pattern, step, text.get(at)),
            b'}' => step = behind_open(pattern, opening(pattern, step), text.get(at)),
            letter => {
                let (more, end) = fit_letter(letter, text, at, seen)?;
                seen = more;
                at = end;
                step = step.saturating_add(1);
            }
        }
    }
    Err(at)
}

/// What the text has by one of these patterns; or the place to which none of them goes on.
pub fn fit_any(
    patterns: &[&str],
    text: &[u8],
    start: usize,
    before: Seen,
) -> Result<(Seen, usize), usize> {
    let mut furthest = start;
    for pattern in patterns {
        match fit(pattern.as_bytes(), text, start, before) {
            Ok(found) => return Ok(found),
            Err(place) => furthest = furthest.max(place),
        }
    }
    Err(furthest)
}
