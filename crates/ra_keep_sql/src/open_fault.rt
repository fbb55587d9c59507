/// Why no keeper was opened.
#[derive(Clone, Copy, Debug, PartialEq, Eq)]
pub enum OpenFault {
    /// The connection can't serve a keeper, or a statement was refused.
    Failed,
    /// The row at that place, from 1, is the first that is no record.
    BadRow { row: u64 },
    NoMemory,
}
