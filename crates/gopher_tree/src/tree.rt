//! `Tree`: its limits, its numbers, and how a file is added.

ghost use Rattle.std.specs.Prelude.{◌≡◌, ◌||◌, ◌+◌, ◌≤◌, ◌<◌, ◌++◌, ◌∷◌, [], None, length, map, count_by, if◌then◌else◌, IfOk, IfErr, OnOk};
ghost use Rattle.std.specs.Option.{option_copied};
ghost use Rattle.gopher_tree.specs.Path.{is_menu_path, leads_at};
ghost use Rattle.gopher_tree.specs.Files.{is_file, is_folder, file_at, is_missing, menu_files, leads_through_file, nodes, nodes_with, is_path_among, AreNodes, total_bytes};
ghost use Rattle.gopher_tree.specs.Fault.{is_too_big, is_twice, file_fault, AddsFile, RefusesFile, MakesTree};
ghost use Rattle.gopher_tree.specs.Found.{file_data, lent_file};

pub(crate) mod file;
pub(crate) mod kind;
pub(crate) mod nodes;
pub(crate) mod path;
pub(crate) mod selector;

use crate::fault::TreeFault;
use crate::menu_file::menu_fault;
use crate::tree::file::File;
use crate::tree::nodes::{Nodes, add_folders, paths_in, put};
use crate::tree::path::{is_menu_path, path_fault};
use gopher_item::NoMemory;
use std::alloc::Global;
use std::collections::BTreeMap;
use std::marker::Model;

/// The most bytes of a file.
pub const MAX_FILE: usize = 16_777_216;

/// The most bytes of all files of a tree.
pub const MAX_BYTES: usize = 67_108_864;

/// The most nodes of a tree: the root, the folders and the files.
pub const MAX_NODES: usize = 4_096;

/// Files and the folders that their paths lead through, as a server sends them.
///
/// Contracts see a tree as the list of its files, each a path and its bytes.
#[derive(Debug, Drop)]
pub struct Tree {
    files: Vec<File>,
    nodes: Nodes,
    bytes: usize,
}

impl Model for Tree {
    ghost use Rattle.std.specs.Prelude.{ℕ, List};
    ghost use Rattle.gopher_tree.specs.Tree.{IsTree};

    ghost Value = { List (List ℕ × List ℕ) };

    ghost view = { λ t. t.files.items };

    ghost invariant = { λ t. IsTree t.files.items t.nodes t.bytes };
}

/// The node that a selector names.
#[derive(Clone, Copy, Debug)]
pub enum Node<'a> {
    /// A file: its type (RFC 1436, section 3.8) and its bytes.
    File(u8, &'a [u8]),
    /// A folder.
    Folder,
}

impl Tree {
    // The tree without files: only its root.
    pub(crate) fn empty(alloc: Global) -> Tree
        ensures { result ≡ [] }
    {
        Tree {
            files: Vec::new(alloc),
            nodes: BTreeMap::new(alloc),
            bytes: 0,
        }
    }

    /// Returns the number of files, including menu files.
    pub fn number_of_files(&self) -> usize
        ensures { result ≡ length self.now }
    {
        self.files.len()
    }

    /// Returns the number of menu files, whose name is `.menu`.
    pub fn number_of_menus(&self) -> usize
        ensures { result ≡ count_by (λ file. is_menu_path file.0) self.now }
    {
        let files = self.files.iter();
        files.filter(|file| is_menu_path(file.path())).count()
    }

    /// Returns the path and the bytes of each menu file, in the order of the files.
    pub fn menu_files(&self, alloc: Global) -> Result<Vec<(&[u8], &[u8])>, NoMemory>
        ensures { IfOk result (λ menus. map lent_file menus.items ≡ menu_files self.now) }
    {
        let mut menus = Vec::new(alloc);
        self.push_menu_files(&mut menus)?;
        Ok(menus)
    }

    // Appends the path and the bytes of each menu file to none.
    fn push_menu_files<'a>(&'a self, menus: &mut Vec<(&'a [u8], &'a [u8])>) -> Result<(), NoMemory>
        requires { menus.old.items ≡ [] }
        ensures { OnOk result (map lent_file menus.new.items ≡ menu_files self.now) }
    {
        for file in &self.files {
            if is_menu_path(file.path()) {
                menus.push((file.path(), file.bytes()))?;
            }
        }
        Ok(())
    }

    /// Returns how many of these paths are neither files nor folders of the tree.
    pub fn number_of_missing(&self, paths: &[Vec<u8>]) -> usize
        ensures { result ≡ count_by (λ path. is_missing self.now path.items) paths.now }
    {
        paths.iter().filter(|path| !self.has_node(path)).count()
    }

    /// Returns the number of bytes of all files, at most 67,108,864.
    pub fn number_of_bytes(&self) -> usize
        ensures count { result ≡ total_bytes self.now }
        ensures bound { result ≤ 67108864 }
    {
        self.bytes
    }

    /// Returns the paths of the root, the folders and the files in byte order.
    pub fn paths(&self, alloc: Global) -> Result<Vec<&[u8]>, NoMemory>
        ensures { IfOk result (λ paths. AreNodes self.now (map (λ path. path.now) paths.items)) }
    {
        paths_in(alloc, &self.nodes)
    }

    pub(crate) fn file_at(&self, path: &[u8]) -> Option<&File>
        ensures { option_copied result ≡ file_at self.now path.now }
    {
        match self.nodes.get(path) {
            Some(Some(number)) => self.files.get(*number),
            _ => None,
        }
    }

    // Whether the path is the root, a folder or a file.
    #[tactic(auto, using(crate::proofs::NodeLemmas::node_is))]
    pub(crate) fn has_node(&self, path: &[u8]) -> bool
        ensures among { result ≡ is_path_among (nodes self.now) path.now }
        ensures either { result ≡ (is_file self.now path.now || is_folder self.now path.now) }
    {
        path.is_empty() || self.nodes.contains_key(path)
    }

    // Whether a file is before this position of a path.
    fn is_file_before(&self, path: &[u8], place: usize) -> bool
        requires { place < length path.now }
        ensures { result ≡ leads_at (is_file self.now) path.now place }
    {
        path[place] == b'/' && self.file_at(&path[..place]).is_some()
    }

    fn leads_through_file(&self, path: &[u8]) -> bool
        requires { 0 < length path.now }
        ensures { result ≡ leads_through_file self.now path.now }
    {
        let mut leads = false;
        for place in 1..path.len() {
            leads |= self.is_file_before(path, place);
        }
        leads
    }

    fn is_twice(&self, path: &[u8]) -> bool
        requires { 0 < length path.now }
        ensures { result ≡ is_twice self.now path.now }
    {
        self.has_node(path) || self.leads_through_file(path)
    }

    // How many folders that don't exist are before this position of a path: 1 or 0.
    fn new_folder_at(&self, path: &[u8], place: usize) -> usize
        requires { place < length path.now }
        ensures count { result ≡ (if leads_at (is_missing self.now) path.now place then 1 else 0) }
        ensures bound { result ≤ 1 }
    {
        usize::from(path[place] == b'/' && !self.has_node(&path[..place]))
    }

    // How many nodes a path adds.
    fn new_nodes(&self, path: &[u8]) -> usize
        requires { 0 < length path.now }
        ensures count { length (nodes_with self.now path.now) ≡ length (nodes self.now) + result }
        ensures bound { result ≤ length path.now }
    {
        let mut count = 0;
        for place in 1..path.len() {
            count += self.new_folder_at(path, place);
        }
        count + usize::from(!self.has_node(path))
    }

    fn is_too_big(&self, path: &[u8], bytes: &[u8]) -> bool
        requires { 0 < length path.now }
        ensures { result ≡ is_too_big self.now (path.now, bytes.now) }
    {
        bytes.len() > MAX_FILE
            || self.bytes + bytes.len() > MAX_BYTES
            || self.nodes.len() + 1 + self.new_nodes(path) > MAX_NODES
    }

    // The first fault of a file after these files.
    fn file_fault(&self, path: &[u8], bytes: &[u8]) -> Option<TreeFault>
        ensures { result ≡ file_fault self.now (path.now, bytes.now) }
    {
        let number = self.files.len();
        if let Some(fault) = path_fault(number, path) {
            return Some(fault);
        }
        if self.is_too_big(path, bytes) {
            return Some(TreeFault::TooBig { file: number });
        }
        if let Some(fault) = menu_fault(number, path, bytes) {
            return Some(fault);
        }
        self.is_twice(path)
            .then_some(TreeFault::Twice { file: number })
    }

    // Adds a file without a fault.
    fn add(self, alloc: Global, path: Vec<u8>, bytes: Vec<u8>) -> Result<Tree, NoMemory>
        requires { file_fault self (path.items, bytes.items) ≡ None }
        ensures { IfOk result (λ tree. tree ≡ self ++ (path.items, bytes.items) ∷ []) }
    {
        let mut tree = self;
        add_folders(alloc, &path, &mut tree.nodes)?;
        put(alloc, &path, Some(tree.files.len()), &mut tree.nodes)?;
        tree.bytes += bytes.len();
        tree.files.push(File::new(path, bytes))?;
        Ok(tree)
    }

    // Adds a file, or fails with its first fault, before anything is allocated.
    pub(crate) fn with_file(
        self,
        alloc: Global,
        path: Vec<u8>,
        bytes: Vec<u8>,
    ) -> Result<Tree, TreeFault>
        ensures added { IfOk result (AddsFile self (path.items, bytes.items)) }
        ensures refused { IfErr result (RefusesFile self (path.items, bytes.items)) }
    {
        if let Some(fault) = self.file_fault(&path, &bytes) {
            return Err(fault);
        }
        self.add(alloc, path, bytes).or(Err(TreeFault::NoMemory))
    }

    /// Makes the tree of a list of files. Each is a path, names joined by slashes, and its bytes.
    ///
    /// # Errors
    ///
    /// The fault of the first file that has one, in this order:
    /// - `BadName` (20), `Reserved` (21), `LongSelector` (22): the path is invalid
    /// - `TooBig` (23): the file or all files have too many bytes, or there are too many nodes
    /// - `BadMenuLine` (24): the file is a `.menu` file with an invalid line
    /// - `Twice` (25): an earlier file has the path or is below it, or the path leads through an
    ///   earlier file
    /// - `NoMemory` (90): out of memory before the fault was reached; the first file's fault is
    ///   reported before anything is allocated
    pub fn of_files(alloc: Global, files: Vec<(Vec<u8>, Vec<u8>)>) -> Result<Tree, TreeFault>
        ensures { MakesTree (map file_data files.items) result }
    {
        let mut tree = Tree::empty(alloc);
        for (path, bytes) in files {
            tree = tree.with_file(alloc, path, bytes)?;
        }
        Ok(tree)
    }
}
