//! One byte of a list after the other.

ghost use Rattle.std.specs.Prelude.{◌≡◌, IfSome};
ghost use Rattle.number_lists.specs.tools.Scanning as scanning;

/// Which numbers a list may have: the greatest, and the greatest behind a minus sign where there may be one.
#[derive(Clone, Copy)]
pub struct Form {
    pub most: u64,
    pub most_below: Option<u64>,
}

/// A number as it is written.
#[derive(Clone, Copy)]
pub struct Number {
    pub negative: bool,
    pub magnitude: u64,
}

/// What the bytes before a place are in the middle of.
#[derive(Clone, Copy)]
pub enum State {
    Between,
    /// Behind a minus sign, before the first digit.
    Signed,
    Within(Number),
}

fn is_blank(byte: u8) -> bool
    ensures { result ≡ scanning.is_blank byte }
{
    matches!(byte, b' ' | b'\t' | b'\n' | b'\r')
}

/// The number with one more digit, where it is within the limit.
fn with_digit(most: u64, number: Number, byte: u8) -> Option<State>
    ensures { result ≡ scanning.with_digit most number byte }
{
    if !byte.is_ascii_digit() {
        return None;
    }
    let digit = (byte - b'0') as u64;
    let magnitude = number.magnitude.checked_mul(10)?.checked_add(digit)?;
    if magnitude <= most {
        Some(State::Within(Number {
            negative: number.negative,
            magnitude,
        }))
    } else {
        None
    }
}

fn most_of(form: Form, negative: bool) -> u64
    ensures { result ≡ scanning.most_of form negative }
{
    if !negative {
        return form.most;
    }
    match form.most_below {
        Some(most) => most,
        None => 0,
    }
}

/// The first byte of a number.
fn begun(form: Form, byte: u8) -> Option<State>
    ensures { result ≡ scanning.begun form byte }
{
    if byte == b'-' {
        return if form.most_below.is_some() {
            Some(State::Signed)
        } else {
            None
        };
    }
    with_digit(
        form.most,
        Number {
            negative: false,
            magnitude: 0,
        },
        byte,
    )
}

/// What a list is in the middle of behind one more byte, or nothing where no list goes on with it.
pub fn step(form: Form, state: State, byte: u8) -> Option<State>
    ensures steps { result ≡ scanning.step form state byte }
    ensures fits { IfSome result (scanning.Fits form) }
{
    match state {
        State::Between if is_blank(byte) => Some(State::Between),
        State::Between => begun(form, byte),
        State::Signed => with_digit(
            most_of(form, true),
            Number {
                negative: true,
                magnitude: 0,
            },
            byte,
        ),
        State::Within(_) if is_blank(byte) => Some(State::Between),
        State::Within(number) => with_digit(most_of(form, number.negative), number, byte),
    }
}

/// The number that ends where a list goes from one state to the next.
pub fn ended(state: State, next: State) -> Option<Number>
    ensures { result ≡ scanning.ended state next }
{
    match (state, next) {
        (State::Within(number), State::Between) => Some(number),
        _ => None,
    }
}
