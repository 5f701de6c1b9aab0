//! Writing a tree and reading it again.
ghost use Rattle.std.specs.Str.{chars};
ghost use Rattle.gft_core.specs.declared.tree.Tree.{Tree};
ghost use Rattle.gft_tree.specs.Trees.{text_of, IsReadable};
ghost use Rattle.gft_tree.specs.Faults.{IsRead};

/// The text of a tree is read as that tree: it spells the tree and no other, and has no fault. The
/// holes are to be 1 or more, and at most 200 parentheses are to be open at once.
pub fn print_and_read()
    ensures { (t : Tree) → IsReadable t → IsRead (chars (text_of t)) t }
{}
