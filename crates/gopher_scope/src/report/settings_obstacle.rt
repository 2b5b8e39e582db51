//! `SettingsObstacle`: why a settings file can't be read, with the cause and the remedy.

ghost use Rattle.std.specs.Prelude.{◌≡◌, IfErr, IfOk};
ghost use Rattle.std.specs.IoError.{error_kind};
ghost use Rattle.std.specs.Str.{IsUtf8};
ghost use Rattle.gopher_scope.specs.Obstacle.{settings_obstacle_of};

use std::alloc::Global;
use std::fs::{self, Files};
use std::io::{self, ErrorKind, Read};
use std::path::Path;
use std::str;

/// The most bytes of a settings file.
const MAX_SETTINGS: u64 = 1_048_576;

/// Why a settings file can't be read.
#[derive(Clone, Copy, Debug, PartialEq, Eq)]
pub enum SettingsObstacle {
    /// No file exists at the path.
    Missing,
    /// The permission to read it is missing.
    Denied,
    /// It is a folder.
    Folder,
    /// Symbolic links form a loop.
    Loop,
    /// It has over 1,048,576 bytes.
    TooLarge,
    /// Its text isn't UTF-8.
    NotUtf8,
    /// The system gives another reason, or reading succeeds now.
    Other,
}

impl SettingsObstacle {
    /// Returns the cause and the remedy in words.
    pub fn explain(self) -> (&'static str, &'static str) {
        match self {
            SettingsObstacle::Missing => ("no file exists at this path", "correct the path"),
            SettingsObstacle::Denied => (
                "permission to read this is missing",
                "give the server's user permission to read it, and to enter the folders above it",
            ),
            SettingsObstacle::Folder => (
                "this is a folder",
                "give the path of the settings file in it",
            ),
            SettingsObstacle::Loop => ("symbolic links form a loop", "remove the link"),
            SettingsObstacle::TooLarge => (
                "this file has over 1048576 bytes",
                "correct the path, or make it smaller",
            ),
            SettingsObstacle::NotUtf8 => ("this file isn't UTF-8", "save it as UTF-8"),
            SettingsObstacle::Other => (
                "the settings can't be read, have over 1048576 bytes, or aren't UTF-8",
                "correct the path, the permissions or the text",
            ),
        }
    }
}

// The obstacle that the kind of the system's error means.
fn obstacle_of(kind: ErrorKind) -> SettingsObstacle
    ensures { result ≡ settings_obstacle_of kind }
{
    match kind {
        ErrorKind::PermissionDenied => SettingsObstacle::Denied,
        ErrorKind::NotFound | ErrorKind::NotADirectory => SettingsObstacle::Missing,
        ErrorKind::IsADirectory => SettingsObstacle::Folder,
        ErrorKind::FilesystemLoop => SettingsObstacle::Loop,
        _ => SettingsObstacle::Other,
    }
}

// The obstacle of these bytes: they aren't UTF-8, or no reason is seen in them.
fn obstacle_of_bytes(bytes: &[u8]) -> SettingsObstacle
    ensures text { IsUtf8 bytes.now → result ≡ SettingsObstacle.Other }
    ensures bytes { ¬ IsUtf8 bytes.now → result ≡ SettingsObstacle.NotUtf8 }
{
    match str::from_utf8(bytes) {
        Ok(_) => SettingsObstacle::Other,
        Err(_) => SettingsObstacle::NotUtf8,
    }
}

// The obstacle of a file, whose first bytes are read once more. What is neither a file nor a folder
// isn't read, because reading a device or a pipe can block.
fn obstacle_of_file<R: Files>(
    rt: &R,
    alloc: Global,
    path: Path<'_>,
) -> io::Result<SettingsObstacle> {
    let found = fs::metadata(rt, path)?;
    if found.is_dir() {
        return Ok(SettingsObstacle::Folder);
    }
    let file = fs::open(rt, path)?;
    if found.len() > MAX_SETTINGS {
        return Ok(SettingsObstacle::TooLarge);
    }
    let mut bytes = Vec::new(alloc);
    if found.is_file() {
        file.take(MAX_SETTINGS).read_to_end(&mut bytes)?;
    }
    Ok(obstacle_of_bytes(&bytes))
}

// The obstacle that looking at a file found.
fn obstacle_found(found: io::Result<SettingsObstacle>) -> SettingsObstacle
    ensures seen { IfOk found (λ how. result ≡ how) }
    ensures failed { IfErr found (λ error. result ≡ settings_obstacle_of (error_kind error)) }
{
    match found {
        Ok(how) => how,
        Err(error) => obstacle_of(error.kind()),
    }
}

/// Looks at a settings file that couldn't be read once more, and returns why.
pub fn settings_obstacle<R: Files>(rt: &R, alloc: Global, path: &str) -> SettingsObstacle {
    obstacle_found(obstacle_of_file(rt, alloc, Path::new(path)))
}
