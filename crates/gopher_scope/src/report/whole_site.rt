//! `SiteSize`: how much the whole folder of a site has, by a walk that reads no file.

use gopher_item::NoMemory;
use std::alloc::{AllocGlobal, Global};
use std::fs::{self, Files, Metadata};
use std::io::{self, ErrorKind};
use std::path::{Path, PathBuf};

// The most names that a walk looks at.
const MAX_NAMES: usize = 1_000_000;

// The most bytes of a path below the root, with its leading slash.
const MAX_BELOW: usize = 255;

// A folder that the walk will enter: its location, and the length of its path below the root with
// its leading slash.
#[derive(Debug, Drop)]
struct Waiting {
    location: PathBuf,
    below: usize,
}

// What a walk has seen: the numbers of files, of folders with the root, of their bytes, and of
// names, and the folders that it will enter.
#[derive(Debug, Drop)]
struct Walk {
    files: usize,
    folders: usize,
    bytes: usize,
    names: usize,
    waiting: Vec<Waiting>,
}

// Whether a name is served. Hidden names aren't, except `.menu`.
fn is_shown(name: &str) -> bool {
    !name.starts_with(".") || name == ".menu"
}

// Whether nothing exists: a link leads nowhere or through a file, or a name has vanished.
fn is_missing(kind: ErrorKind) -> bool {
    matches!(kind, ErrorKind::NotFound | ErrorKind::NotADirectory)
}

impl Walk {
    // Counts a file, or a folder that has to be entered. What is neither isn't served.
    fn count(&mut self, found: Metadata, location: PathBuf, below: usize) -> io::Result<()> {
        if found.is_dir() {
            self.folders = self.folders.saturating_add(1);
            self.waiting.push(Waiting { location, below })?;
        } else if found.is_file() {
            self.files = self.files.saturating_add(1);
            self.bytes = self.bytes.saturating_add(found.len() as usize);
        }
        Ok(())
    }

    // Looks at the file or folder to which a name leads.
    fn look<R: Files>(
        &mut self,
        rt: &R,
        alloc: Global,
        folder: Path<'_>,
        below: usize,
        name: &str,
    ) -> io::Result<()> {
        let below = below.saturating_add(name.len()).saturating_add(1);
        if below > MAX_BELOW {
            return Err(ErrorKind::InvalidFilename.into());
        }
        let location = folder.join(alloc, name)?;
        match fs::metadata(rt, location.as_path()) {
            Ok(found) => self.count(found, location, below),
            Err(error) if is_missing(error.kind()) => Ok(()),
            Err(error) => Err(error),
        }
    }

    // Looks at each name in a folder.
    fn enter<R: Files + AllocGlobal + Clone + Drop>(
        &mut self,
        rt: &R,
        folder: &Waiting,
    ) -> io::Result<()> {
        let location = fs::canonicalize(rt, folder.location.as_path())?;
        for entry in fs::read_dir(rt, location.as_path())? {
            let entry = entry?;
            if self.names >= MAX_NAMES {
                return Err(ErrorKind::Other.into());
            }
            self.names += 1;
            if is_shown(entry.file_name()) {
                self.look(
                    rt,
                    rt.alloc(),
                    location.as_path(),
                    folder.below,
                    entry.file_name(),
                )?;
            }
        }
        Ok(())
    }

    // Enters all folders below a root, and the root.
    fn enter_all<R: Files>(&mut self, rt: &R, alloc: Global) -> io::Result<()> {
        for _folder in 0..=MAX_NAMES {
            let Some(folder) = self.waiting.pop() else {
                return Ok(());
            };
            self.enter(&(rt, alloc), &folder)?;
        }
        Ok(())
    }
}

/// How much a folder and the folders below have. If a file or folder can't be examined, a path is
/// longer than a server sends, or there are over 1,000,000 names, the folder has more.
#[derive(Clone, Copy, Debug)]
pub struct SiteSize {
    /// The number of files.
    pub files: usize,
    /// The number of folders, with the root.
    pub folders: usize,
    /// The number of bytes.
    pub bytes: usize,
    /// Whether the folder has no more than these.
    pub is_exact: bool,
}

/// Returns how much the folder `root` has. Names are skipped, and links counted, as the tree of a
/// folder does it.
pub fn whole_site<R: Files>(rt: &R, alloc: Global, root: &str) -> Result<SiteSize, NoMemory> {
    let mut walk = Walk {
        files: 0,
        folders: 1,
        bytes: 0,
        names: 0,
        waiting: Vec::new(alloc),
    };
    let location = Path::new(root).to_path_buf(alloc)?;
    walk.waiting.push(Waiting { location, below: 0 })?;
    let is_exact = match walk.enter_all(rt, alloc) {
        Ok(()) => true,
        Err(error) if error.kind() == ErrorKind::OutOfMemory => return Err(NoMemory),
        Err(_) => false,
    };
    Ok(SiteSize {
        files: walk.files,
        folders: walk.folders,
        bytes: walk.bytes,
        is_exact,
    })
}
