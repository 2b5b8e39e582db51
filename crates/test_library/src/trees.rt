//! Trees of lists of files. What folders are loaded as, and what they reply, is shown by
//! tests/check.py and tests/requests.py.

use gopher_item::Home;
use gopher_tree::{Node, Tree, TreeFault};
use std::alloc::{AllocError, Global};

/// Paths and bytes.
pub type Files = &'static [(&'static [u8], &'static [u8])];

fn list(alloc: Global, files: Files) -> Result<Vec<(Vec<u8>, Vec<u8>)>, AllocError> {
    let mut list = Vec::new(alloc);
    for (path, bytes) in files {
        list.push((
            Vec::from_slice(alloc, path)?,
            Vec::from_slice(alloc, bytes)?,
        ))?;
    }
    Ok(list)
}

/// The tree of these files.
pub fn tree_of(alloc: Global, files: Files) -> Result<Tree, TreeFault> {
    match list(alloc, files) {
        Ok(files) => Tree::of_files(alloc, files),
        Err(_refused) => Err(TreeFault::NoMemory),
    }
}

// Lists of files, with their faults and their numbers.
const REFUSED: &[(Files, TreeFault, u8)] = &[
    (&[(b"a//b", b"")], TreeFault::BadName { file: 0 }, 20),
    (&[(b"search", b"")], TreeFault::Reserved { file: 0 }, 21),
    (
        &[(&[b'a'; 255], b"")],
        TreeFault::LongSelector { file: 0 },
        22,
    ),
    (
        &[(b".menu", b"0x\ta\tb")],
        TreeFault::BadMenuLine { file: 0, line: 1 },
        24,
    ),
    (
        &[(b"a", b""), (b"a/b", b"")],
        TreeFault::Twice { file: 1 },
        25,
    ),
    (&[(b".a", b"")], TreeFault::BadName { file: 0 }, 20),
    (
        &[(b"a", b""), (b".menu/a", b"")],
        TreeFault::BadName { file: 1 },
        20,
    ),
    (&[(b"search//a", b"")], TreeFault::BadName { file: 0 }, 20),
    (&[(b"search/a", b"")], TreeFault::Reserved { file: 0 }, 21),
    (
        &[(b"a", b""), (b".menu", b"Welcome\n0A\t/a\n0B\t/b\th\t7o")],
        TreeFault::BadMenuLine { file: 1, line: 3 },
        24,
    ),
    (
        &[(b"a", b""), (b"a", b"")],
        TreeFault::Twice { file: 1 },
        25,
    ),
    (
        &[(b"a/b/c", b""), (b"a/b", b"")],
        TreeFault::Twice { file: 1 },
        25,
    ),
];

// The fault of a list of files, if it has one.
fn fault_of(alloc: Global, files: Files) -> Option<TreeFault> {
    tree_of(alloc, files).err()
}

#[test]
fn trees_are_refused(rt: HostRuntime) {
    for (files, fault, code) in REFUSED {
        assert!(rt; fault_of(rt.alloc(), files) == Some(*fault) && fault.code() == *code);
    }
}

// The fault of a tree of one file of this size.
fn fault_of_size(alloc: Global, size: usize) -> Option<TreeFault> {
    let file = (
        Vec::from_slice(alloc, b"a").ok()?,
        vec![in alloc; b'a'; size].ok()?,
    );
    let mut files = Vec::new(alloc);
    files.push(file).ok()?;
    Tree::of_files(alloc, files).err()
}

#[test]
fn a_file_has_at_most_16_mebibytes(rt: HostRuntime) {
    assert!(rt; fault_of_size(rt.alloc(), 16_777_216).is_none());
    let fault = fault_of_size(rt.alloc(), 16_777_217);
    assert!(rt; fault == Some(TreeFault::TooBig { file: 0 }));
    assert!(rt; fault.map(TreeFault::code) == Some(23));
}

// The tree of one file of this size, whose reply is its bytes.
fn tree_of_size(alloc: Global, size: usize) -> Option<Tree> {
    let file = (
        Vec::from_slice(alloc, b"a.gif").ok()?,
        vec![in alloc; b'a'; size].ok()?,
    );
    let mut files = Vec::new(alloc);
    files.push(file).ok()?;
    Tree::of_files(alloc, files).ok()
}

#[test]
fn the_largest_file_is_replied_whole(rt: HostRuntime) {
    let tree = tree_of_size(rt.alloc(), 16_777_216).expect(&rt, "a tree");
    let home = Home::new(rt.alloc(), b"localhost", 7070)
        .ok()
        .expect(&rt, "a home");
    let reply = tree
        .reply(rt.alloc(), b"/a.gif", &home)
        .ok()
        .expect(&rt, "a reply");
    assert!(rt; reply.len() == 16_777_216);
}

const FILES: Files = &[
    (b"a.txt", b".\nhi"),
    (b"docs/b.gif", b"GIF\0.\n"),
    (b"docs/.menu", b"Welcome\n"),
    (&[b'b'; 254], b""),
];

#[test]
fn files_and_folders_are_found(rt: HostRuntime) {
    let tree = tree_of(rt.alloc(), FILES).ok().expect(&rt, "a tree");
    let home = Home::new(rt.alloc(), b"localhost", 7070)
        .ok()
        .expect(&rt, "a home");
    assert!(rt; matches!(tree.find(b"/docs"), Some(Node::Folder)));
    assert!(rt;
        matches!(
            tree.find(b"/docs/b.gif"),
            Some(Node::File(b'g', b"GIF\0.\n"))
        )
    );
    assert!(rt; tree.find(b"/docs/.menu").is_none() && tree.find(b"docs").is_none());
    let text = tree
        .reply(rt.alloc(), b"/a.txt", &home)
        .ok()
        .expect(&rt, "a reply");
    assert!(rt; text.as_slice() == b"..\r\nhi\r\n.\r\n".as_slice());
}
