use objects::Cursor;

// EF.OD's entries: how far reading has come, how many objects there are, and the place of the first entry that names a path once more.
#[derive(Clone, Copy, Debug, PartialEq, Eq)]
pub struct Entries {
    pub at: Cursor,
    pub objects: usize,
    pub again: Option<usize>,
}
