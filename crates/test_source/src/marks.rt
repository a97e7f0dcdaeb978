/// Whether a tree is shown with the lines of its nodes.
#[derive(Clone, Copy, PartialEq, Eq)]
pub enum Marks {
    Hidden,
    Lines,
}
