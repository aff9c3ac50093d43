//! What remarks say of names.

/// What a remark says of the names of a folder. The bytes of the name are those of the line.
#[derive(Clone, Copy)]
pub enum NameRemark<'l> {
    /// The next grant of the ring binds it to this name. Up to it there were `before` grants of the
    /// ring, and `floor` of all rings for ever.
    Bind {
        ring: u32,
        before: u64,
        floor: u64,
        name: &'l [u8],
    },
    /// The ring has no name any more.
    Free {
        ring: u32,
    },
    /// There were this many grants of all rings for ever.
    Top {
        grants: u64,
    },
}

/// The line begins as a remark about names, and is not one.
#[derive(Clone, Copy, Debug, PartialEq, Eq)]
pub struct Misspelled;
