//! Loading a tree from a folder of the file system (`Tree::load`): the walk, depth first.

ghost use Rattle.std.specs.Prelude.{true, ◌≡◌, ◌<◌, ◌≤◌, length, IfOk, IfErr, OnOk};
ghost use Rattle.gopher_tree.specs.Files.{total_bytes};
ghost use Rattle.gopher_tree.specs.Fault.{AddsFile};
ghost use Rattle.gopher_tree.specs.Load.{AreShown, Refuses, HasRoom, Loads, LoadsTo};
ghost use Rattle.gopher_tree.specs.Leaving.{left_out_fault, AddsLeftOut, MayLeaveOut, RefusesToLeaveOut, WalksOn, Decides, LoadsLeaving};

pub(crate) mod folder;
pub(crate) mod left_out;
pub(crate) mod trail;

use crate::fault::TreeFault;
use crate::load::folder::{Names, Target, names_in, read_file, target_of, without_links};
use crate::load::left_out::{LeftOut, leave_out, leave_out_nameless};
use crate::load::trail::Trail;
use crate::tree::path::{folder_fault, path_fault, path_in};
use crate::tree::{MAX_FILE, Tree};
use std::alloc::Global;
use std::fs::Files;
use std::path::{Path, PathBuf};

impl Tree {
    // Lists a file, or fails with its first fault. Empty folders count among the nodes.
    fn with_listed(
        self,
        alloc: Global,
        path: Vec<u8>,
        bytes: Vec<u8>,
        trail: &Trail,
    ) -> Result<Tree, TreeFault>
        ensures listed { IfOk result (AddsFile self (path.items, bytes.items)) }
        ensures room { OnOk result (HasRoom (length self) trail.now) }
        ensures refused { IfErr result (Refuses self trail.now (path.items, bytes.items)) }
    {
        let number = self.number_of_files();
        if let Some(fault) = path_fault(number, &path) {
            return Err(fault);
        }
        if trail.leaves_no_room(number) {
            return Err(TreeFault::TooBig { file: number });
        }
        self.with_file(alloc, path, bytes)
    }

    // The fault for which a file is left out: its name, its selector or its own size.
    fn left_out_fault(&self, path: &[u8], bytes: &[u8]) -> Option<TreeFault>
        ensures { result ≡ left_out_fault self.now (path.now, bytes.now) }
    {
        let number = self.number_of_files();
        match path_fault(number, path) {
            Some(TreeFault::Reserved { .. }) => None,
            Some(fault) => Some(fault),
            None => (bytes.len() > MAX_FILE).then_some(TreeFault::TooBig { file: number }),
        }
    }

    // Leaves out a file or folder with this fault, or fails with it if the walk leaves nothing out.
    fn without(
        self,
        alloc: Global,
        path: &[u8],
        fault: TreeFault,
        leaves_out: bool,
        left: &mut Vec<LeftOut>,
    ) -> Result<Tree, TreeFault>
        ensures same { IfOk result (λ tree. tree ≡ self) }
        ensures noted { OnOk result (AddsLeftOut left.old.items left.new.items path.now fault) }
        ensures allowed { OnOk result (MayLeaveOut leaves_out fault) }
        ensures kept { IfErr result (λ error. left.new.items ≡ left.old.items) }
        ensures refused { IfErr result (RefusesToLeaveOut leaves_out fault) }
    {
        leave_out(alloc, leaves_out, path, fault, left)?;
        Ok(self)
    }

    // Lists a file, or leaves it out.
    fn with_served(
        self,
        alloc: Global,
        path: Vec<u8>,
        bytes: Vec<u8>,
        trail: &Trail,
        leaves_out: bool,
        left: &mut Vec<LeftOut>,
    ) -> Result<Tree, TreeFault>
        requires path { trail.now.path.items ≡ path.items }
        requires bytes { trail.now.bytes ≡ total_bytes self }
        requires size { length bytes.items ≤ trail.now.size }
        ensures walks { WalksOn leaves_out self trail.now left.old.items left.new.items result }
        ensures noted { IfOk result (Decides self (path.items, bytes.items) left.old left.new) }
    {
        match self.left_out_fault(&path, &bytes) {
            Some(fault) => self.without(alloc, &path, fault, leaves_out, left),
            None => self.with_listed(alloc, path, bytes, trail),
        }
    }

    // Reads a file and lists it, unless it has vanished or is left out.
    fn through_file<R: Files>(
        self,
        rt: &R,
        alloc: Global,
        file: Path<'_>,
        path: Vec<u8>,
        trail: &mut Trail,
        leaves_out: bool,
        left: &mut Vec<LeftOut>,
    ) -> Result<Tree, TreeFault>
        requires path { trail.old.path.items ≡ path.items }
        requires bytes { trail.old.bytes ≡ total_bytes self }
        ensures { WalksOn leaves_out self trail.new left.old.items left.new.items result }
    {
        match read_file(rt, alloc, file, self.number_of_files(), &mut trail.size) {
            Ok(Some(bytes)) => self.with_served(alloc, path, bytes, trail, leaves_out, left),
            Ok(None) => Ok(self),
            Err(fault) => self.without(alloc, &path, fault, leaves_out, left),
        }
    }

    // Lists everything in a folder with these names and in the folders below, name by name.
    #[cycle(walk)]
    fn through_names<R: Files>(
        self,
        rt: &R,
        alloc: Global,
        folder: Path<'_>,
        path: &[u8],
        names: Names,
        trail: &mut Trail,
        leaves_out: bool,
        left: &mut Vec<LeftOut>,
    ) -> Result<Tree, TreeFault>
        requires short { length path.now ≤ 254 }
        requires shown { AreShown names.shown.items }
        ensures { WalksOn leaves_out self trail.new left.old.items left.new.items result }
    {
        let number = self.number_of_files();
        let Ok(()) = leave_out_nameless(alloc, path, number, names.nameless, left) else {
            return Err(TreeFault::NoMemory);
        };
        let mut tree = self;
        for name in names.shown {
            tree = tree.through_name(
                rt,
                alloc,
                folder,
                path,
                name.as_str(),
                trail,
                leaves_out,
                left,
            )?;
        }
        Ok(tree)
    }

    // Lists everything in a folder that was visited, or leaves it out if its names can't be read.
    #[cycle(walk)]
    fn through_visited<R: Files>(
        self,
        rt: &R,
        alloc: Global,
        folder: Path<'_>,
        path: &[u8],
        trail: &mut Trail,
        leaves_out: bool,
        left: &mut Vec<LeftOut>,
    ) -> Result<Tree, TreeFault>
        requires { length path.now ≤ 254 }
        ensures { WalksOn leaves_out self trail.new left.old.items left.new.items result }
    {
        let number = self.number_of_files();
        match names_in(
            rt,
            alloc,
            folder,
            false,
            number,
            leaves_out,
            &mut trail.hidden,
        ) {
            Ok(names) => self.through_names(
                rt, alloc, folder, path, names, trail, leaves_out, left,
            ),
            Err(fault) => {
                trail.forget(leaves_out);
                self.without(alloc, path, fault, leaves_out, left)
            }
        }
    }

    // Visits a folder and lists everything in it, or leaves it out.
    #[cycle(walk)]
    fn through_folder<R: Files>(
        self,
        rt: &R,
        alloc: Global,
        folder: PathBuf,
        path: &[u8],
        trail: &mut Trail,
        leaves_out: bool,
        left: &mut Vec<LeftOut>,
    ) -> Result<Tree, TreeFault>
        requires path { trail.old.path.items ≡ path.now }
        requires below { 0 < length path.now }
        ensures { WalksOn leaves_out self trail.new left.old.items left.new.items result }
    {
        let number = self.number_of_files();
        if let Some(fault) = folder_fault(number, leaves_out, path) {
            return self.without(alloc, path, fault, leaves_out, left);
        }
        trail.enter(alloc, number)?;
        let folder = without_links(rt, alloc, folder)?;
        self.through_visited(rt, alloc, folder.as_path(), path, trail, leaves_out, left)
    }

    // Lists the file or folder to which a name leads, or leaves it out.
    #[cycle(walk)]
    fn through_name<R: Files>(
        self,
        rt: &R,
        alloc: Global,
        folder: Path<'_>,
        path: &[u8],
        name: &str,
        trail: &mut Trail,
        leaves_out: bool,
        left: &mut Vec<LeftOut>,
    ) -> Result<Tree, TreeFault>
        requires short { length path.now ≤ 254 }
        requires named { 0 < length name.now }
        ensures { WalksOn leaves_out self trail.new left.old.items left.new.items result }
    {
        let Ok(location) = folder.join(alloc, name) else {
            return Err(TreeFault::NoMemory);
        };
        let Ok(path) = path_in(alloc, path, name.as_bytes()) else {
            return Err(TreeFault::NoMemory);
        };
        let Ok(()) = trail.reach(&path, self.number_of_bytes()) else {
            return Err(TreeFault::NoMemory);
        };
        match target_of(rt, location.as_path(), self.number_of_files()) {
            Ok(Target::File) => {
                self.through_file(rt, alloc, location.as_path(), path, trail, leaves_out, left)
            }
            Ok(Target::Folder) => {
                self.through_folder(rt, alloc, location, &path, trail, leaves_out, left)
            }
            Ok(Target::Neither) => {
                trail.nowhere = trail.nowhere.saturating_add(1);
                Ok(self)
            }
            Err(fault) => self.without(alloc, &path, fault, leaves_out, left),
        }
    }

    // Lists everything in the folder `root` and the folders below.
    fn through_root<R: Files>(
        rt: &R,
        alloc: Global,
        root: &str,
        trail: &mut Trail,
        leaves_out: bool,
        left: &mut Vec<LeftOut>,
    ) -> Result<Tree, TreeFault>
        ensures { LoadsLeaving leaves_out trail.new left.old.items left.new.items result }
    {
        let root = Path::new(root);
        let names = names_in(rt, alloc, root, true, 0, leaves_out, &mut trail.hidden)?;
        Tree::empty(alloc).through_names(rt, alloc, root, b"", names, trail, leaves_out, left)
    }

    /// Makes the tree of the folder `root` of the file system and the folders below. A relative
    /// path starts at the working directory.
    ///
    /// The files are listed depth first, the names of each folder in byte order. A link counts as
    /// its target. These names are skipped:
    /// - names that begin with a period, except `.menu`
    /// - names of devices, pipes and other things that are neither regular files nor folders
    /// - links that lead nowhere or through a file
    /// - names that vanish while the folder is read
    ///
    /// At most the length of a file at opening is read, and at most one byte over the limit of a
    /// file. A folder without files isn't in the tree, but counts among the nodes.
    ///
    /// # Errors
    ///
    /// The first fault in the order of the walk; `file` is the number of files listed before:
    /// - `Unreadable` (26): a folder can't be listed, one of its names, hidden or not, isn't UTF-8,
    ///   an entry can't be examined, or a file can't be read, for example because a link leads to
    ///   itself
    /// - `BadName` to `Twice` (20 to 25): a file has the fault, as in `Tree::of_files`
    /// - `LongSelector` (22), `TooBig` (23): a folder has the fault, with or without files
    /// - `NoMemory` (90)
    pub fn load<R: Files>(rt: &R, alloc: Global, root: &str) -> Result<Tree, TreeFault>
        ensures { Loads result }
    {
        let mut trail = Trail::new(alloc);
        Tree::load_along(rt, alloc, root, &mut trail)
    }

    /// Makes the tree of a folder as `load` does, and tells what the walk met on a new trail.
    ///
    /// If the call fails, the trail ends at the file or folder with the fault, at the one that
    /// can't be read, or at the folder with a name that isn't UTF-8. `TooBig` (23) comes only if
    /// the size of that file is over a limit, alone or with `trail.bytes`, or if the root,
    /// `trail.folders` and the files listed before are as many as a tree may have. When out of
    /// memory, the end has no meaning.
    ///
    /// # Errors
    ///
    /// Those of `load`.
    pub fn load_along<R: Files>(
        rt: &R,
        alloc: Global,
        root: &str,
        trail: &mut Trail,
    ) -> Result<Tree, TreeFault>
        ensures { LoadsTo trail.new result }
    {
        let mut left = Vec::new(alloc);
        Tree::through_root(rt, alloc, root, trail, false, &mut left)
    }

    /// Makes the tree of a folder as `load_along` does, but leaves out what can't be served, and
    /// appends it to `left` in the order of the walk.
    ///
    /// A file or folder with one of these faults is left out, with everything below it:
    /// - `BadName` (20), also of a folder named `.menu` and of an empty folder
    /// - `LongSelector` (22)
    /// - `TooBig` (23), if the file alone has over 16,777,216 bytes
    /// - `Unreadable` (26): it can't be examined, read or listed
    ///
    /// A name that isn't UTF-8 is left out as `Unreadable`; its folder stands for it in `left`.
    ///
    /// What is left out counts neither as a node nor with its bytes, and `trail.folders` doesn't
    /// contain it.
    ///
    /// # Errors
    ///
    /// The first fault for which nothing is left out; `left` then ends with what was left out
    /// before it:
    /// - `Unreadable` (26): `root` can't be listed
    /// - `TooBig` (23): all files have too many bytes, or there are too many nodes
    /// - `Reserved` (21), `BadMenuLine` (24), `Twice` (25): a file has the fault
    /// - `NoMemory` (90)
    pub fn load_leaving_out<R: Files>(
        rt: &R,
        alloc: Global,
        root: &str,
        trail: &mut Trail,
        left: &mut Vec<LeftOut>,
    ) -> Result<Tree, TreeFault>
        ensures loaded { LoadsTo trail.new result }
        ensures left { LoadsLeaving true trail.new left.old.items left.new.items result }
    {
        Tree::through_root(rt, alloc, root, trail, true, left)
    }
}
