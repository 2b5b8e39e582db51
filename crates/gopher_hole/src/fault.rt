//! The faults of the program.

ghost use Rattle.std.specs.Prelude.{◌≡◌};
ghost use Rattle.gopher_hole.specs.Fault.{program_fault_code, details_of, tree_details};

use crate::aliases::AliasFault;
use gopher_catalogue::OpenFault;
use gopher_crew::DeskFault;
use gopher_item::NoMemory;
use gopher_scope::{Key, SettingsFault, SiteFault};
use gopher_script::ReplayFault;
use gopher_tree::TreeFault;
use thiserror::Error;

/// Why the program ended with status 1.
#[derive(Clone, Copy, Debug, PartialEq, Eq, Error)]
pub enum ProgramFault {
    /// 10 to 13, 70 or 90: the replay failed.
    #[error("{0}")]
    Replay(ReplayFault),
    /// 13: a line couldn't be written or flushed.
    #[error("a write failed")]
    WriteFailed,
    /// 20 to 26, 30 to 34, 80 or 90: the settings or their folder have a fault.
    #[error("{0}")]
    Site(SiteFault),
    /// 35 or 90: the file of aliases has a bad line.
    #[error("{0}")]
    Aliases(AliasFault),
    /// 36: the file of aliases can't be read, or has over 1,048,576 bytes.
    #[error("the file of aliases can't be read")]
    AliasesUnreadable,
    /// 50, 51, 54 or 90: the crawl can't begin.
    #[error("{0}")]
    Open(OpenFault),
    /// 60, 61 or 90: the desk can't be opened.
    #[error("{0}")]
    Desk(DeskFault),
    /// 62: the workers' shares don't count the events of the crawl.
    #[error("the shares are not those of the desk")]
    StrangeShare,
    /// 81: no address could be bound, or a connection couldn't be accepted.
    #[error("listening failed")]
    ListenFailed,
    /// 82: a server thread couldn't be started.
    #[error("a server thread couldn't be started")]
    NoThread,
    /// 83: a strict check has a warning.
    #[error("there is a warning")]
    Warned,
    /// 90: out of memory.
    #[error("out of memory")]
    NoMemory,
}

/// A detail that the line of a fault names after its number.
#[derive(Clone, Copy, Debug, PartialEq, Eq)]
pub enum Detail {
    /// Nothing.
    Nothing,
    /// The key of the settings.
    Key(Key),
    /// The index of the file in the order of the walk.
    File(usize),
    /// The index of the seed.
    Seed(usize),
    /// The number of the line, from 1.
    Line(usize),
}

impl ProgramFault {
    /// Returns the number of the fault.
    pub fn code(self) -> u8
        ensures { result ≡ program_fault_code self }
    {
        match self {
            ProgramFault::Replay(fault) => fault.code(),
            ProgramFault::WriteFailed => 13,
            ProgramFault::Site(fault) => fault.code(),
            ProgramFault::Aliases(fault) => fault.code(),
            ProgramFault::AliasesUnreadable => 36,
            ProgramFault::Open(fault) => fault.code(),
            ProgramFault::Desk(fault) => fault.code(),
            ProgramFault::StrangeShare => 62,
            ProgramFault::ListenFailed => 81,
            ProgramFault::NoThread => 82,
            ProgramFault::Warned => 83,
            ProgramFault::NoMemory => 90,
        }
    }

    /// Returns what its line says after its number: the key for 31 to 33, the file for 20 to 23 and
    /// 25, the file and its line for 24, the seed for 50, the line for 35 and 70.
    pub fn details(self) -> (Detail, Detail)
        ensures { result ≡ details_of self }
    {
        match self {
            ProgramFault::Replay(ReplayFault::BadScript(line))
            | ProgramFault::Aliases(AliasFault::BadLine(line)) => {
                (Detail::Line(line), Detail::Nothing)
            }
            ProgramFault::Site(SiteFault::Tree(fault, _)) => tree_details(fault),
            ProgramFault::Site(
                SiteFault::Settings(
                    SettingsFault::Missing(key)
                    | SettingsFault::WrongKind(key)
                    | SettingsFault::OutOfRange(key),
                ),
            ) => (Detail::Key(key), Detail::Nothing),
            ProgramFault::Site(SiteFault::SeedOutOfScope(seed))
            | ProgramFault::Open(OpenFault::SeedOutOfScope(seed)) => {
                (Detail::Seed(seed), Detail::Nothing)
            }
            _ => (Detail::Nothing, Detail::Nothing),
        }
    }
}

fn tree_details(fault: TreeFault) -> (Detail, Detail)
    ensures { result ≡ tree_details fault }
{
    match fault {
        TreeFault::BadName { file }
        | TreeFault::Reserved { file }
        | TreeFault::LongSelector { file }
        | TreeFault::TooBig { file }
        | TreeFault::Twice { file } => (Detail::File(file), Detail::Nothing),
        TreeFault::BadMenuLine { file, line } => (Detail::File(file), Detail::Line(line)),
        TreeFault::Unreadable { .. } | TreeFault::NoMemory => (Detail::Nothing, Detail::Nothing),
    }
}

impl From<NoMemory> for ProgramFault {
    ghost use Rattle.gopher_hole.specs.declared.fault.ProgramFault.TheVariants.{NoMemory};

    ghost from_gives = { λ _ fault. fault ≡ NoMemory };

    fn from(_refused: NoMemory) -> ProgramFault {
        ProgramFault::NoMemory
    }
}

impl From<SiteFault> for ProgramFault {
    ghost use Rattle.gopher_hole.specs.declared.fault.ProgramFault.TheVariants.{Site};

    ghost from_gives = { λ site fault. fault ≡ Site site };

    fn from(fault: SiteFault) -> ProgramFault {
        ProgramFault::Site(fault)
    }
}

impl From<AliasFault> for ProgramFault {
    ghost use Rattle.gopher_hole.specs.declared.fault.ProgramFault.TheVariants.{Aliases};

    ghost from_gives = { λ aliases fault. fault ≡ Aliases aliases };

    fn from(fault: AliasFault) -> ProgramFault {
        ProgramFault::Aliases(fault)
    }
}
