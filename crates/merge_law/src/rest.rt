/// How the guest of thread 1 came to rest: main returned, an event stopped the run, or a guest was left off before its next event.
#[derive(Clone, Copy, Debug, PartialEq, Eq)]
pub enum Rest {
    Returned(i32),
    Stopped,
    LeftOff,
}
