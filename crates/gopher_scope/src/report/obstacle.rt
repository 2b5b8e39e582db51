//! `Obstacle`: why a file or folder can't be read, or is too much, with the cause and the remedy.

ghost use Rattle.std.specs.Prelude.{◌≡◌, IfErr, IfOk};
ghost use Rattle.std.specs.IoError.{error_kind};
ghost use Rattle.gopher_scope.specs.Obstacle.{excess, obstacle_of, IsReason};

use gopher_tree::{MAX_BYTES, MAX_FILE, Trail, TreeFault};
use std::alloc::{AllocGlobal, Global};
use std::fs::{self, Files};
use std::io::{self, ErrorKind};
use std::path::Path;
use std::str;

/// Why a file or folder can't be read, or is too much.
#[derive(Clone, Copy, Debug, PartialEq, Eq)]
pub enum Obstacle {
    /// A name in the folder isn't UTF-8.
    NotUtf8,
    /// The permission to read it is missing.
    Denied,
    /// Nothing exists at the path.
    Missing,
    /// It has to be a folder and isn't one.
    NotFolder,
    /// Symbolic links form a loop.
    Loop,
    /// The system gives another reason, or reading succeeds now.
    Other,
    /// The file has too many bytes; with their number.
    LargeFile(usize),
    /// The files up to this one have too many bytes together; with their number.
    LargeSite(usize),
    /// There are too many files and folders up to this one; with their number, and the root.
    ManyNodes(usize),
}

impl Obstacle {
    /// Returns the cause and the remedy in words.
    pub fn explain(self) -> (&'static str, &'static str) {
        match self {
            Obstacle::NotUtf8 => (
                "a name in this folder isn't UTF-8",
                "rename it; ls -b shows its bytes",
            ),
            Obstacle::Denied => (
                "permission to read this is missing",
                "give the server's user permission to read it, and to enter the folders above it",
            ),
            Obstacle::Missing => (
                "no file or folder exists at this path",
                "create the folder, or correct root in the settings",
            ),
            Obstacle::NotFolder => ("this isn't a folder", "correct root in the settings"),
            Obstacle::Loop => ("symbolic links form a loop", "remove the link"),
            Obstacle::Other => (
                "the system couldn't read this",
                "read it as the server's user to see the reason",
            ),
            Obstacle::LargeFile(_) => (
                "this file has over 16777216 bytes",
                "make it smaller, or remove it",
            ),
            Obstacle::LargeSite(_) => (
                "the files up to this one have over 67108864 bytes together",
                "serve fewer or smaller files",
            ),
            Obstacle::ManyNodes(_) => (
                "there are over 4096 files and folders up to this one, with the root",
                "serve fewer files, or remove a symbolic link that points to a folder above it",
            ),
        }
    }
}

// The obstacle that the kind of the system's error means.
fn obstacle_of(kind: ErrorKind) -> Obstacle
    ensures { result ≡ obstacle_of kind }
{
    match kind {
        ErrorKind::InvalidFilename => Obstacle::NotUtf8,
        ErrorKind::PermissionDenied => Obstacle::Denied,
        ErrorKind::NotFound => Obstacle::Missing,
        ErrorKind::NotADirectory => Obstacle::NotFolder,
        ErrorKind::FilesystemLoop => Obstacle::Loop,
        _ => Obstacle::Other,
    }
}

// Reads the names of a folder.
fn read_names<R: Files + AllocGlobal + Clone + Drop>(rt: &R, folder: Path<'_>) -> io::Result<()> {
    for entry in fs::read_dir(rt, folder)? {
        let _ = entry?;
    }
    Ok(())
}

// Reads the names of a folder, or opens a file.
fn read_at<R: Files>(rt: &R, alloc: Global, path: Path<'_>) -> io::Result<()> {
    if fs::metadata(rt, path)?.is_dir() {
        return read_names(&(rt, alloc), path);
    }
    let _ = fs::open(rt, path)?;
    Ok(())
}

// The reason why a read failed.
fn obstacle_of_read(read: io::Result<()>) -> Obstacle
    ensures well { IfOk read (λ done. result ≡ Obstacle.Other) }
    ensures failed { IfErr read (λ error. result ≡ obstacle_of (error_kind error)) }
{
    match read {
        Ok(()) => Obstacle::Other,
        Err(error) => obstacle_of(error.kind()),
    }
}

// Reads the file or folder at `path` once more. Returns the system's reason why that fails.
fn obstacle_at<R: Files>(rt: &R, alloc: Global, path: &[u8]) -> Obstacle {
    match str::from_utf8(path) {
        Ok(path) => obstacle_of_read(read_at(rt, alloc, Path::new(path))),
        Err(_) => Obstacle::Other,
    }
}

// The limit that a tree passes at the end of a trail, after `number` files.
fn excess(number: usize, trail: &Trail) -> Obstacle
    ensures { result ≡ excess number trail.now }
{
    let bytes = trail.bytes.saturating_add(trail.size);
    if trail.size > MAX_FILE {
        Obstacle::LargeFile(trail.size)
    } else if bytes > MAX_BYTES {
        Obstacle::LargeSite(bytes)
    } else {
        Obstacle::ManyNodes(trail.folders.len().saturating_add(number).saturating_add(2))
    }
}

/// Returns why a walk stopped with a fault at the end of its trail, at `place`. If something
/// couldn't be read, it is read once more.
pub fn reason<R: Files>(
    rt: &R,
    alloc: Global,
    fault: TreeFault,
    trail: &Trail,
    place: &[u8],
) -> Obstacle
    ensures { IsReason fault trail.now result }
{
    match fault {
        TreeFault::TooBig { file } => excess(file, trail),
        TreeFault::Unreadable { .. } => obstacle_at(rt, alloc, place),
        _ => Obstacle::Other,
    }
}
