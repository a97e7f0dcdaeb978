ghost use Rattle.std.specs.Prelude.{◌≡◌, ◌*◌};
ghost use Rattle.heap_desk.specs.Desk.{room_for_items};

/// The words that so many items of so many words take: at least one.
pub fn room_for(count: u32, words: u32) -> u64
    ensures { result ≡ room_for_items count words }
{
    1u64.max(u64::from(count) * u64::from(words))
}
