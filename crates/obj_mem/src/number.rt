ghost use Rattle.std.specs.Prelude.{◌≡◌, ◌+◌, ◌<◌, ◌≤◌, List, ◌∷◌, length, reverse};
ghost use Rattle.obj_mem.specs.declared.event.Stamp.{Stamp};
ghost use Rattle.obj_mem.specs.Input.{numbers_left, first_or_0};

use crate::event::{Event, Stamp};

// How many numbers are left, with this event.
#[tactic(auto, unfolding(crate::specs::Input::numbers_left))]
fn left_with(stamp: &Stamp, left: u32) -> u32
    requires { left < 2147483648 }
    ensures left { (h : List Stamp) → left ≡ length (numbers_left h) → result ≡ length (numbers_left (stamp.now ∷ h)) }
    ensures few { result ≤ left + 1 }
{
    match stamp.event {
        Event::Given { .. } => left + 1,
        Event::In => left.saturating_sub(1),
        _ => left,
    }
}

/// How many numbers of the input are left.
#[tactic(auto, unfolding(crate::specs::Input::numbers_left))]
pub(crate) fn count_left(events: &[Stamp]) -> u32
    requires { length events.now < 2147483648 }
    ensures left { result ≡ length (numbers_left (reverse events.now)) }
    ensures few { result ≤ length events.now }
{
    let mut left = 0;
    for stamp in events {
        left = left_with(stamp, left);
    }
    left
}

/// The first of the numbers that are left, and 0 where none is. They are the ones that were given last.
pub(crate) fn first_left(events: &[Stamp]) -> i32
    requires { length events.now < 2147483648 }
    ensures { result ≡ first_or_0 (numbers_left (reverse events.now)) }
{
    let mut left = count_left(events);
    let mut rest = events;
    while let Some((stamp, earlier)) = rest.split_last() {
        rest = earlier;
        let Event::Given { v } = stamp.event else {
            continue;
        };
        if left == 1 {
            return v;
        }
        left = left.saturating_sub(1);
    }
    0
}
