use dfi_base::Bits;
use sqlite_items::Items;

/// What holds between the rows of a table. Rows, and masks, go by their numbers; the members of a row are numbers
/// too, and may be those of rows.
#[derive(Drop)]
pub enum Rule {
    /// A row has a member.
    Has {
        row: u32,
        member: u32,
    },
    /// A row flows into another, under a mask if there is one.
    Flow {
        from: u32,
        mask: Option<u32>,
        to: u32,
    },
    /// The members of a row that a mask lets pass flow into another, each moved up by a number. None moves past the end.
    Shift {
        from: u32,
        mask: u32,
        by: u32,
        to: u32,
    },
    /// What several rows have in common flows into a row.
    Meet {
        first: u32,
        rest: Items<u32>,
        to: u32,
    },
    /// A row flows into another where a third one has a member.
    Guard {
        test: u32,
        member: u32,
        from: u32,
        to: u32,
    },
    /// A row flows into each row that is a member of `targets`.
    Store {
        targets: u32,
        from: u32,
    },
    /// Each row that is a member of `sources` flows into a row.
    Load {
        sources: u32,
        to: u32,
    },
}

/// Rules over a table whose rows, like the masks, have `width` places.
#[derive(Drop)]
pub struct System {
    pub width: u32,
    pub masks: Items<Bits>,
    pub rules: Items<Rule>,
}
