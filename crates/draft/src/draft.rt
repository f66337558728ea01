// A draft: the rows that are edited, and the rows to go back to while a change is open.
use table::storage::Rows;

#[derive(Drop)]
pub struct Draft {
    pub(crate) mark: u32,
    pub(crate) working: Rows,
    pub(crate) saved: Rows,
    // A flag and no `Option` of the saved rows: their memory is taken when the draft is made, and stays between changes.
    pub(crate) changing: bool,
}
