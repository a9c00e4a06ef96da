// The dictionary of a column: its distinct texts in byte order.

ghost use Rattle.std.specs.{Prelude.{◌≡◌, ◌<◌, ◌^◌, Some, count_by, length, slice_get}, List.Sorted.IsStrictlySortedBy};
ghost use Rattle.star_schema.specs.Dictionary.{text_cmp, low_in, high_in};
ghost use Rattle.star_column.specs.Private.Edge.{is_after};

use star_flat::FlatTexts;
use std::cmp::Ordering;
use std::marker::Model;

/// Distinct texts in byte order.
#[derive(Drop)]
pub(crate) struct Dictionary {
    texts: FlatTexts,
}

impl Model for Dictionary {
    ghost use Rattle.std.specs.{Prelude.{◌<◌, ◌^◌, ℕ, List, length}, List.Sorted.IsStrictlySortedBy};
    ghost use Rattle.star_schema.specs.Dictionary.{text_cmp};

    ghost Value = { List (List ℕ) };

    ghost view = { λ dictionary. dictionary.texts };

    ghost invariant = { λ dictionary. (length dictionary.texts < 2 ^ 32)
        × IsStrictlySortedBy text_cmp dictionary.texts };
}

/// The two edges of a text's range among sorted texts.
#[derive(Clone, Copy)]
enum Edge {
    /// After the smaller texts.
    Low,
    /// After the smaller and the equal texts.
    High,
}

impl Edge {
    /// Tests whether this edge of a text comes after another text that compares so with it.
    fn is_after(self, ordering: Ordering) -> bool
        ensures { result ≡ is_after self ordering }
    {
        match self {
            Edge::Low => ordering.is_lt(),
            Edge::High => ordering.is_le(),
        }
    }
}

impl Dictionary {
    /// Returns the number of texts.
    pub(crate) fn entries(&self) -> u32
        ensures { result ≡ length self.now }
    {
        self.texts.len() as u32
    }

    /// Returns the text with a code, from 0.
    pub(crate) fn text_of(&self, code: u32) -> &[u8]
        requires { code < length self.now }
        ensures { slice_get self.now code ≡ Some result.now }
    {
        self.texts.get(code as usize)
    }

    /// Returns the number of smaller texts.
    pub(crate) fn low(&self, text: &[u8]) -> u32
        ensures { result ≡ low_in self.now text.now }
    {
        self.edge(Edge::Low, text)
    }

    /// Returns the number of smaller and equal texts.
    pub(crate) fn high(&self, text: &[u8]) -> u32
        ensures { result ≡ high_in self.now text.now }
    {
        self.edge(Edge::High, text)
    }

    /// Returns the number of texts before an edge of this one.
    fn edge(&self, edge: Edge, text: &[u8]) -> u32
        ensures { result ≡ count_by (λ other. is_after edge (text_cmp other text.now)) self.now }
    {
        let mut low = 0;
        let mut high = self.texts.len();
        while low < high {
            let middle = low + (high - low) / 2;
            if edge.is_after(self.texts.get(middle).cmp(&text)) {
                low = middle + 1;
            } else {
                high = middle;
            }
        }
        low as u32
    }

    /// Makes a dictionary of distinct texts in byte order.
    pub(crate) fn of_ordered(texts: FlatTexts) -> Dictionary
        requires sorted { IsStrictlySortedBy text_cmp texts }
        requires few { length texts < 2 ^ 32 }
        ensures { result ≡ texts }
    {
        Dictionary { texts }
    }
}
