// A query from its text.

use crate::counts::MAX_TEXT;
use crate::fault::QueryFault;
use crate::lexer::tokens_of;
use crate::parser::parse_tokens;
use crate::tree::Tree;
use std::alloc::Global;
use std::marker::Model;

/// A query: its tree is the meaning of some text. Only parsing a text makes one, and contracts see
/// it as its tree.
#[derive(Drop)]
pub struct Query {
    tree: Tree,
}

impl Model for Query {
    ghost use Rattle.star_query.specs.{declared.tree.Tree.Tree, contracts.tree.Tree.the_row, Views.tree_view, Meant.IsMeant};

    ghost Value = { Tree };

    ghost coded = { the_row.coded };

    ghost view = { λ query. query.tree };

    ghost invariant = { λ query. ∥ IsMeant (tree_view query.tree) ∥₁ };
}

impl Query {
    ghost use Rattle.std.specs.Prelude.{◌≡◌, IfOk, IfErr, MatchResult};
    ghost use Rattle.star_query.specs.{declared.fault.QueryFault.TheVariants.OutOfMemory, Derives.{Means, IsFirstQueryFault}, Meant.IsMeant, Views.tree_view};
    ghost use Rattle.star_query.specs.Tree as spec;

    /// The query that a text is, or the first fault: of its length, then of its tokens from the
    /// left, then of the grammar and its limits at the first token that breaks one. Out of memory
    /// may come before any other fault.
    pub fn parse(alloc: Global, text: &[u8]) -> Result<Query, QueryFault>
        // The tree that is read is the text's meaning.
        ensures found { IfOk result (λ query. Means text.now (tree_view query)) }
        // A text that means a tree is read as it, unless memory runs out.
        ensures only { (tree : spec.Tree) → Means text.now tree
            → MatchResult result (λ query. tree_view query ≡ tree) (λ fault. fault ≡ OutOfMemory) }
        // A refusal is the first fault.
        ensures fault { IfErr result (λ fault. IsFirstQueryFault text.now fault) }
    {
        if text.len() > MAX_TEXT {
            return Err(QueryFault::TooLong);
        }
        let tokens = tokens_of(alloc, text)?;
        let tree = parse_tokens(alloc, tokens.as_slice(), text.len())?;
        Ok(Query { tree })
    }

    /// The tree that was read. `law::meant_trees_are_within_limits` states the limits of every tree
    /// that a text means.
    pub fn tree(&self) -> &Tree
        ensures lent { result.now ≡ self.now }
        // Some text means it.
        ensures meant { ∥ IsMeant (tree_view result.now) ∥₁ }
    {
        &self.tree
    }
}
