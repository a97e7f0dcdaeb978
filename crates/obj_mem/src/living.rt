ghost use Rattle.std.specs.Prelude.{◌≡◌, ◌+◌, ◌<◌, ◌≤◌, ◌&&◌, nat_eq, true, List, ◌∷◌, drop, length, reverse, MatchOption};
ghost use Rattle.obj_mem.specs.declared.event.Stamp.{Stamp};
ghost use Rattle.obj_mem.specs.Alive.{makes, made_by, next_maker, block_words, next_block, open_frames, live_blocks, is_frame, is_block, is_lasting, is_live};

use crate::Maker;
use crate::event::{Event, Stamp};
use crate::value::{Obj, Value, is_same};
use dfi_base::Name;

// Whether a thread of this name makes a frame or a block.
fn is_made_by(stamp: &Stamp, name: Name) -> bool
    ensures { result ≡ (nat_eq stamp.now.name.0 name.0 && makes stamp.now.event) }
{
    let makes = match stamp.event {
        Event::Call { .. } | Event::New { .. } => true,
        _ => false,
    };
    stamp.name.0 == name.0 && makes
}

// How many were made, with this event.
#[tactic(auto, unfolding(crate::specs::Alive::made_by))]
fn made_with(stamp: &Stamp, name: Name, made: u32) -> u32
    requires { made < 2147483648 }
    ensures made { (h : List Stamp) → made ≡ made_by name.0 h → result ≡ made_by name.0 (stamp.now ∷ h) }
    ensures few { result ≤ made + 1 }
{
    if is_made_by(stamp, name) {
        made + 1
    } else {
        made
    }
}

// How many were made before this event.
#[tactic(auto, unfolding(crate::specs::Alive::made_by))]
fn made_before(stamp: &Stamp, name: Name, made: u32) -> u32
    ensures { (h : List Stamp) → made ≡ made_by name.0 (stamp.now ∷ h) → result ≡ made_by name.0 h }
{
    if is_made_by(stamp, name) {
        made.saturating_sub(1)
    } else {
        made
    }
}

// How many frames and blocks were made by threads of this name.
#[tactic(auto, unfolding(crate::specs::Alive::made_by))]
fn made_by(events: &[Stamp], name: Name) -> u32
    requires { length events.now < 2147483648 }
    ensures made { result ≡ made_by name.0 (reverse events.now) }
    ensures few { result ≤ length events.now }
{
    let mut made = 0;
    for stamp in events {
        made = made_with(stamp, name, made);
    }
    made
}

/// Whose is what a thread of this name makes next.
pub(crate) fn next_maker(events: &[Stamp], name: Name) -> Maker
    requires { length events.now < 2147483648 }
    ensures { result ≡ next_maker name.0 (reverse events.now) }
{
    Maker {
        thread: name,
        count: made_by(events, name) + 1,
    }
}

// The words of a block of so many items.
fn block_words(count: i32, words: u32) -> u32
    ensures { result ≡ block_words count words }
{
    match u32::try_from(count) {
        Ok(items) => items.saturating_mul(words),
        Err(_) => 0,
    }
}

/// The block that a thread of this name makes next.
pub(crate) fn next_block(events: &[Stamp], name: Name, site: u32, count: i32, words: u32) -> Obj
    requires { length events.now < 2147483648 }
    ensures { result ≡ next_block name.0 (reverse events.now) site count words }
{
    Obj {
        site,
        maker: next_maker(events, name),
        len: block_words(count, words),
    }
}

// How many frames were left before this event; none where it made the frame that is looked for.
#[tactic(auto, unfolding(crate::specs::Alive::open_frames, crate::specs::Alive::made_by))]
fn left_before(stamp: &Stamp, maker: Maker, made: u32, left: u32) -> Option<u32>
    requires { left < 2147483648 }
    ensures { (h : List Stamp) → made ≡ made_by maker.thread.0 (stamp.now ∷ h) → MatchOption result
        (is_frame maker (drop left (open_frames maker.thread.0 (stamp.now ∷ h))) ≡ true)
        (λ before. (is_frame maker (drop left (open_frames maker.thread.0 (stamp.now ∷ h)))
        ≡ is_frame maker (drop before (open_frames maker.thread.0 h))) × (before ≤ left + 1)) }
{
    if stamp.name.0 != maker.thread.0 {
        return Some(left);
    }
    match stamp.event {
        Event::Call { .. } if left == 0 && made == maker.count => None,
        Event::Call { .. } => Some(left.saturating_sub(1)),
        Event::Ret => Some(left + 1),
        _ => Some(left),
    }
}

// Whether the call that made a frame has not returned. Going back, a return stands for the call of its frame.
#[tactic(auto, using(crate::proofs::Back::none_back), unfolding(crate::specs::Alive::open_frames))]
fn is_open(events: &[Stamp], maker: Maker) -> bool
    requires { length events.now < 2147483648 }
    ensures { result ≡ is_frame maker (open_frames maker.thread.0 (reverse events.now)) }
{
    let mut made = made_by(events, maker.thread);
    let mut left = 0;
    let mut rest = events;
    while let Some((stamp, earlier)) = rest.split_last() {
        match left_before(stamp, maker, made, left) {
            Some(before) => left = before,
            None => return true,
        }
        made = made_before(stamp, maker.thread, made);
        rest = earlier;
    }
    false
}

// Whether a block lives behind an event, by whether it lived before; so much was made by its thread.
#[tactic(auto, using(crate::proofs::Blocks::freed_block), unfolding(crate::specs::Alive::live_blocks))]
fn lives_behind(stamp: &Stamp, made: u32, obj: Obj, lived: bool) -> bool
    requires { made < 2147483648 }
    ensures { (h : List Stamp) → made ≡ made_by obj.maker.thread.0 h → lived ≡ is_block obj (live_blocks h)
        → result ≡ is_block obj (live_blocks (stamp.now ∷ h)) }
{
    match stamp.event {
        Event::New { site, count, words } => {
            let maker = Maker {
                thread: stamp.name,
                count: made + 1,
            };
            let len = block_words(count, words);
            is_same(Obj { site, maker, len }, obj) || lived
        }
        Event::Free {
            p: Value::Ptr { obj: freed, .. },
        } => lived && !is_same(obj, freed),
        _ => lived,
    }
}

/// Whether an object is a live block.
#[tactic(auto, unfolding(crate::specs::Alive::made_by, crate::specs::Alive::live_blocks))]
pub(crate) fn is_live_block(events: &[Stamp], obj: Obj) -> bool
    requires { length events.now < 2147483648 }
    ensures { result ≡ is_block obj (live_blocks (reverse events.now)) }
{
    let mut made = 0;
    let mut lives = false;
    for stamp in events {
        lives = lives_behind(stamp, made, obj, lives);
        made = made_with(stamp, obj.maker.thread, made);
    }
    lives
}

/// Whether an object lives.
pub(crate) fn is_live(events: &[Stamp], obj: Obj) -> bool
    requires { length events.now < 2147483648 }
    ensures { result ≡ is_live (reverse events.now) obj }
{
    let lasts = obj.maker.count == 0 && obj.maker.thread.0 <= 1;
    lasts || is_open(events, obj.maker) || is_live_block(events, obj)
}
