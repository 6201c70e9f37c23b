// A file of the dump: its number, "0 for EF.OD, then 1 upward in dump order", and the place where it starts.
#[derive(Clone, Copy)]
pub struct Site {
    pub number: u16,
    pub start: usize,
}
