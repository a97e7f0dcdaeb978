use dfi_base::Line;

/// An identifier, as the number of its name.
#[derive(Clone, Copy)]
pub struct Ident {
    pub line: Line,
    pub name: u32,
}
