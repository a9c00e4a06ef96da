//! Laws of query texts: functions with no body, whose clauses hold of all texts.

ghost use Rattle.std.specs.Prelude.{◌≡◌, ◌≢◌, ℕ, List};
ghost use Rattle.star_query.specs.{declared.fault.QueryFault.QueryFault, declared.fault.QueryFault.TheVariants.OutOfMemory, Tree.Tree, Limits.IsQueryWithinLimits, Meant.IsMeant, Spelled.IsSpelledQuery, Derives.Means, Derives.IsFirstQueryFault};

/// No text means two trees.
pub fn one_tree()
    ensures { (bytes : List ℕ) (a b : Tree) → Means bytes a → Means bytes b → a ≡ b }
{}

/// What a text means has at most 16 items, 8 aggregates, 512 operands in them, 256 comparisons, 6
/// group columns and 16 sort keys. Its names have 1 to 64 letters, digits and `_`, its numbers at
/// most 18 digits, and its texts bytes from 0x20 to 0x7E.
pub fn meant_trees_are_within_limits()
    ensures limits { (tree : Tree) → ∥ IsMeant tree ∥₁ → IsQueryWithinLimits tree }
    ensures spelled { (tree : Tree) → ∥ IsMeant tree ∥₁ → IsSpelledQuery tree }
{}

/// A text that means a tree has none.
pub fn texts_that_mean_a_tree_have_no_fault()
    ensures { (bytes : List ℕ) (tree : Tree) (fault : QueryFault)
        → fault ≢ OutOfMemory → Means bytes tree → IsFirstQueryFault bytes fault → ⊥ }
{}
