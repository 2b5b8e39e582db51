//! `File`: the path, the type and the bytes of a file.

ghost use Rattle.std.specs.Prelude.{◌≡◌};
ghost use Rattle.gopher_tree.specs.Kind.{kind_of};

use crate::tree::kind::kind_of;
use std::marker::Model;

// A file: its path, its bytes, and its type, which is computed once.
#[derive(Debug, Drop)]
pub(crate) struct File {
    path: Vec<u8>,
    kind: u8,
    bytes: Vec<u8>,
}

impl Model for File {
    ghost use Rattle.std.specs.Prelude.{◌≡◌, ℕ, List};
    ghost use Rattle.gopher_tree.specs.Kind.{kind_of};

    ghost Value = { List ℕ × List ℕ };

    ghost view = { λ f. (f.path.items, f.bytes.items) };

    ghost invariant = { λ f. f.kind ≡ kind_of f.path.items f.bytes.items };
}

impl File {
    pub(crate) fn new(path: Vec<u8>, bytes: Vec<u8>) -> File
        ensures { result ≡ (path.items, bytes.items) }
    {
        let kind = kind_of(&path, &bytes);
        File { path, kind, bytes }
    }

    // The path, without a leading slash.
    pub(crate) fn path(&self) -> &[u8]
        ensures { result.now ≡ self.now.0 }
    {
        &self.path
    }

    pub(crate) fn kind(&self) -> u8
        ensures { result ≡ kind_of self.now.0 self.now.1 }
    {
        self.kind
    }

    pub(crate) fn bytes(&self) -> &[u8]
        ensures { result.now ≡ self.now.1 }
    {
        &self.bytes
    }
}
