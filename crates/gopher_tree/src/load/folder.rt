//! Reading the file system: the names in a folder, the target of a name, and the bytes of a file.
//!
//! A name can vanish between any two calls, because other programs change the folder while it is
//! read. A name that has vanished counts as a link that leads nowhere.

ghost use Rattle.std.specs.Prelude.{◌≡◌, ◌≢◌, [], IfErr, IfOk, None, OnOk, Some, string_cmp};
ghost use Rattle.std.specs.List.Sorted.{IsSorted};
ghost use Rattle.std.specs.Fs.{IsDir, IsFile, file_type, metadata_len};
ghost use Rattle.std.specs.IoError.{error_kind};
ghost use Rattle.std.specs.declared.io.ErrorKind.TheVariants.{OutOfMemory};
ghost use Rattle.gopher_tree.specs.Load.{is_shown, AddsShown, AreShown, CountsHidden, HasSize, IsUnreadable, most_read, ReadsMost};

use crate::fault::TreeFault;
use crate::tree::MAX_FILE;
use crate::tree::path::is_menu_name;
use std::alloc::{AllocError, AllocGlobal, Global};
use std::fs::{Files, OpenFile};
use std::io::{ErrorKind, Read};
use std::path::{Path, PathBuf};
use std::{fs, io};

// The most bytes of a file that are read: one more than a file may have.
const MAX_READ: u64 = MAX_FILE as u64 + 1;

// The target of an entry of a folder.
#[derive(Clone, Copy, Debug)]
pub(crate) enum Target {
    File,
    Folder,
    Neither,
}

// The names of a folder.
#[derive(Debug, Drop)]
pub(crate) struct Names {
    // Those that are listed.
    pub(crate) shown: Vec<String>,
    // How many aren't UTF-8 and are left out.
    pub(crate) nameless: usize,
}

impl Names {
    fn none(alloc: Global) -> Names
        ensures { result.shown.items ≡ [] }
    {
        Names {
            shown: Vec::new(alloc),
            nameless: 0,
        }
    }
}

// The fault of a file or folder that can't be read; `number` files were listed before.
fn read_fault(error: io::Error, number: usize) -> TreeFault
    ensures memory { error_kind error ≡ OutOfMemory → result ≡ TreeFault.NoMemory }
    ensures unreadable { error_kind error ≢ OutOfMemory → result ≡ TreeFault.Unreadable number }
    ensures refused { IsUnreadable number result }
{
    match error.kind() {
        ErrorKind::OutOfMemory => TreeFault::NoMemory,
        _ => TreeFault::Unreadable { file: number },
    }
}

// Whether a name is listed. Hidden names aren't, except `.menu`.
fn is_shown(name: &[u8]) -> bool
    ensures { result ≡ is_shown name.now }
{
    match name {
        [] => false,
        [b'.', ..] => is_menu_name(name),
        _ => true,
    }
}

// Appends the name if it is listed, and else counts it.
fn push_shown(
    alloc: Global,
    name: &str,
    names: &mut Vec<String>,
    hidden: &mut usize,
) -> Result<(), AllocError>
    requires { AreShown names.old.items }
    ensures shown { AreShown names.new.items }
    ensures kept { OnOk result (AddsShown names.old names.new name.now) }
    ensures counted { CountsHidden hidden.old hidden.new name.now }
{
    if is_shown(name.as_bytes()) {
        names.push(String::from_str(alloc, name)?)?;
    } else {
        *hidden = hidden.saturating_add(1);
    }
    Ok(())
}

// Appends the listed names of a folder, and counts the others: the hidden ones, and those that
// aren't UTF-8 if the walk leaves them out.
fn push_names<R: Files + AllocGlobal + Clone + Drop>(
    rt: &R,
    folder: Path<'_>,
    leaves_out: bool,
    names: &mut Names,
    hidden: &mut usize,
) -> io::Result<()>
    requires { AreShown names.old.shown.items }
    ensures { AreShown names.new.shown.items }
{
    for entry in fs::read_dir(rt, folder)? {
        match entry {
            Ok(entry) => push_shown(rt.alloc(), entry.file_name(), &mut names.shown, hidden)?,
            Err(error) if leaves_out && error.kind() == ErrorKind::InvalidFilename => {
                names.nameless = names.nameless.saturating_add(1);
            }
            Err(error) => return Err(error),
        }
    }
    Ok(())
}

// The listed names of a folder. Counts the others.
fn shown_names<R: Files>(
    rt: &R,
    alloc: Global,
    folder: Path<'_>,
    leaves_out: bool,
    hidden: &mut usize,
) -> io::Result<Names>
    ensures { IfOk result (λ names. AreShown names.shown.items) }
{
    let mut names = Names::none(alloc);
    push_names(&(rt, alloc), folder, leaves_out, &mut names, hidden)?;
    Ok(names)
}

// Whether nothing exists: a link leads nowhere or through a file, or a name has vanished.
fn is_missing(kind: ErrorKind) -> bool {
    matches!(kind, ErrorKind::NotFound | ErrorKind::NotADirectory)
}

// The listed names of a folder in byte order. A name that isn't UTF-8 can't be read, hidden or not:
// it is a fault, unless the walk leaves it out. A folder that has vanished has no names, except the
// root. `number` files were listed before. Counts the other names.
pub(crate) fn names_in<R: Files>(
    rt: &R,
    alloc: Global,
    folder: Path<'_>,
    is_root: bool,
    number: usize,
    leaves_out: bool,
    hidden: &mut usize,
) -> Result<Names, TreeFault>
    ensures shown { IfOk result (λ names. AreShown names.shown.items) }
    ensures order { IfOk result (λ names. IsSorted string_cmp names.shown.items) }
    ensures refused { IfErr result (IsUnreadable number) }
{
    let mut names = match shown_names(rt, alloc, folder, leaves_out, hidden) {
        Ok(names) => names,
        Err(error) if !is_root && is_missing(error.kind()) => Names::none(alloc),
        Err(error) => return Err(read_fault(error, number)),
    };
    names.shown.sort().or(Err(TreeFault::NoMemory))?;
    Ok(names)
}

// The target of a path, through links. A link that leads nowhere or through a file leads to neither
// a file nor a folder. The path isn't opened, because opening a device or a pipe can block.
pub(crate) fn target_of<R: Files>(
    rt: &R,
    path: Path<'_>,
    number: usize,
) -> Result<Target, TreeFault>
    ensures { IfErr result (IsUnreadable number) }
{
    match fs::metadata(rt, path) {
        Ok(found) => Ok(target_found(found)),
        Err(error) if is_missing(error.kind()) => Ok(Target::Neither),
        Err(error) => Err(read_fault(error, number)),
    }
}

// The target by its metadata.
fn target_found(meta: fs::Metadata) -> Target
    ensures folder { IsDir (file_type meta) → result ≡ Target.Folder }
    ensures file { IsFile (file_type meta) → result ≡ Target.File }
    ensures other { ¬ IsDir (file_type meta) → ¬ IsFile (file_type meta) → result ≡ Target.Neither }
{
    if meta.is_dir() {
        Target::Folder
    } else if meta.is_file() {
        Target::File
    } else {
        Target::Neither
    }
}

// The folder's path without links, so that a path through a link to a folder above stays short
// enough to open. If it can't be computed, the path itself.
pub(crate) fn without_links<R: Files>(
    rt: &R,
    alloc: Global,
    folder: PathBuf,
) -> Result<PathBuf, TreeFault>
    ensures { IfErr result (λ fault. fault ≡ TreeFault.NoMemory) }
{
    match fs::canonicalize(&(rt, alloc), folder.as_path()) {
        Ok(path) => Ok(path),
        Err(error) if error.kind() == ErrorKind::OutOfMemory => Err(TreeFault::NoMemory),
        Err(_) => Ok(folder),
    }
}

// How many bytes of an open file are read: at most its length, and one over the largest file;
// `None` if it isn't a regular file.
fn most_read(meta: &fs::Metadata) -> Option<u64>
    ensures file { IsFile (file_type meta.now) → result ≡ Some (most_read (metadata_len meta.now)) }
    ensures other { ¬ IsFile (file_type meta.now) → result ≡ None }
{
    if !meta.is_file() {
        return None;
    }
    Some(meta.len().min(MAX_READ))
}

// The bytes of a file; `None` if it has vanished, or its path leads to no regular file by now.
// `size` is then its length, or how many bytes were read, if these are more.
pub(crate) fn read_file<R: Files>(
    rt: &R,
    alloc: Global,
    path: Path<'_>,
    number: usize,
    size: &mut usize,
) -> Result<Option<Vec<u8>>, TreeFault>
    ensures sized { IfOk result (HasSize size.new) }
    ensures refused { IfErr result (IsUnreadable number) }
{
    match fs::open(rt, path) {
        Ok(file) => read_open(alloc, file, number, size),
        Err(error) if is_missing(error.kind()) => Ok(None),
        Err(error) => Err(read_fault(error, number)),
    }
}

// The bytes of an open file up to its length, because reading can block at files of the kernel that
// have length 0; `None` if it isn't a regular file.
fn read_open<F: Read + OpenFile + Drop>(
    alloc: Global,
    file: F,
    number: usize,
    size: &mut usize,
) -> Result<Option<Vec<u8>>, TreeFault>
    ensures sized { IfOk result (HasSize size.new) }
    ensures refused { IfErr result (IsUnreadable number) }
{
    let found = match file.metadata() {
        Ok(found) => found,
        Err(error) => return Err(read_fault(error, number)),
    };
    let Some(most) = most_read(&found) else {
        return Ok(None);
    };
    let bytes = read_most(alloc, file, most, number)?;
    *size = bytes.len().max(found.len() as usize);
    Ok(Some(bytes))
}

// An empty vector. It has room for the bytes, and for one more that shows that no others follow, if
// there is memory for them.
fn room_for(alloc: Global, bytes: u64) -> Vec<u8>
    ensures { result.items ≡ [] }
{
    let room = bytes.saturating_add(1) as usize;
    Vec::with_capacity(alloc, room).unwrap_or(Vec::new(alloc))
}

// The first `most` bytes of a reader, or all bytes if there are fewer.
fn read_most<R: Read + Drop>(
    alloc: Global,
    reader: R,
    most: u64,
    number: usize,
) -> Result<Vec<u8>, TreeFault>
    ensures read { ReadsMost most (R.remaining reader) result }
    ensures refused { IfErr result (IsUnreadable number) }
{
    let mut bytes = room_for(alloc, most);
    match reader.take(most).read_to_end(&mut bytes) {
        Ok(_) => {
            bytes.shrink_to_fit();
            Ok(bytes)
        }
        Err(error) => Err(read_fault(error, number)),
    }
}
