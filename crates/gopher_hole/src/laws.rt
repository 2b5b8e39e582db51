//! Laws of a site. The functions do nothing: their contracts are the laws.

ghost use Rattle.gopher_hole.specs.Answer.{NoAliasesChangeNothing, SearchesTakeNothingBack};

/// However many lines a site has answered, it searches a record that begins with everything that
/// its pass saw and was told of before them. So a page that one client found isn't taken back from
/// a later client, unless 50 better hits come first.
pub fn searches_take_nothing_back()
    ensures { SearchesTakeNothingBack }
{}

/// A site without aliases replies to each line as `answer` does.
pub fn no_aliases_change_nothing()
    ensures { NoAliasesChangeNothing }
{}
