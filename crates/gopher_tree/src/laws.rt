//! Laws of folder listings and menu files. Each function does nothing: its contract is the law.

ghost use Rattle.gopher_tree.specs.Laws.{ListingsAscend, ListingsAreWhole, WrittenLinesAreMade};

/// The names in a folder's listing are distinct and in byte order.
pub fn listings_ascend()
    ensures { ListingsAscend }
{}

/// A folder's listing contains a name exactly if the path of some file leads from the folder
/// through the name, or to it. The folder's own `.menu` file isn't listed.
pub fn listings_are_whole()
    ensures { ListingsAreWhole }
{}

/// A line of a menu file with a type and a selector is valid exactly if `MenuLine::new` makes a
/// line of them for a server with a valid host.
pub fn written_lines_are_made()
    ensures { WrittenLinesAreMade }
{}
