//! `TreeFault`: why files don't make a tree, with the number of each fault.

ghost use Rattle.std.specs.Prelude.{◌≡◌};
ghost use Rattle.gopher_tree.specs.Fault.{tree_fault_code};

use thiserror::Error;

/// Why files don't make a tree. `file` is the index of the file in the list, from 0; in a walk
/// through a folder it is the number of files listed before.
#[derive(Clone, Copy, Debug, PartialEq, Eq, Error)]
pub enum TreeFault {
    /// 20: a name of the path is empty, begins with a period (except `.menu` as the last name), or
    /// contains a TAB, CR, LF or NUL.
    #[error("file {file}: a name is empty, begins with a period or contains a special byte")]
    BadName { file: usize },
    /// 21: the first name of the path is `search`, which searches use.
    #[error("file {file}: the name search is reserved")]
    Reserved { file: usize },
    /// 22: the selector, a slash and the path, has over 255 bytes.
    #[error("file {file}: the selector has over 255 bytes")]
    LongSelector { file: usize },
    /// 23: the file has over 16,777,216 bytes, all files together have over 67,108,864 bytes, or
    /// there are over 4,096 nodes: the root, the folders and the files.
    #[error("file {file}: the file or all files are too large, or there are too many nodes")]
    TooBig { file: usize },
    /// 24: a line of a `.menu` file has none of the valid forms; `line` counts from 1.
    #[error("file {file}: line {line} isn't a valid menu line")]
    BadMenuLine { file: usize, line: usize },
    /// 25: the path occurs twice, or a path is both a file and a folder.
    #[error("file {file}: the path occurs twice, or is both a file and a folder")]
    Twice { file: usize },
    /// 26: a file or a folder can't be read, or a name isn't UTF-8.
    #[error("file {file}: a file or folder can't be read")]
    Unreadable { file: usize },
    /// 90: out of memory.
    #[error("out of memory")]
    NoMemory,
}

impl TreeFault {
    /// The number of the fault: 20 to 26, or 90.
    pub fn code(self) -> u8
        ensures { result ≡ tree_fault_code self }
    {
        match self {
            TreeFault::BadName { .. } => 20,
            TreeFault::Reserved { .. } => 21,
            TreeFault::LongSelector { .. } => 22,
            TreeFault::TooBig { .. } => 23,
            TreeFault::BadMenuLine { .. } => 24,
            TreeFault::Twice { .. } => 25,
            TreeFault::Unreadable { .. } => 26,
            TreeFault::NoMemory => 90,
        }
    }
}
