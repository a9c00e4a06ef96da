//! Laws of tables whose lineorder is in parts.

ghost use Rattle.std.specs.Prelude.{◌≤◌, ◌↔◌, ◌++◌, ℕ, All, List, ◌∷◌, length};
ghost use Rattle.star_schema.specs.{declared.group.Aggregate.Aggregate, declared.group.Shape.Shape, Database.{Database, TableTexts}, Groups.{AreGroups, GroupRow}, Loadable.IsLoadable, Order.value_cmp, Records.records_in, Tables.Value};
ghost use Rattle.star_merge_laws.specs.{Facts.{AreFactsOf, Facts, joined_facts}, Merging.{AreMerged, IsPart, Part, all_groups, all_rows}, Parts.{LineorderPart, IsLoadablePart, AreDisjoint, whole_text, with_lineorder}};
ghost use Rattle.star_catalogue.specs.Pieces.{with_lineorder_text};

/// The groups over the rows of all parts, plain or of a cube or a rollup, are those that are merged
/// from the plain groups of each part.
pub fn groups_are_made_of_those_of_parts()
    ensures { (shape : Shape) (count : ℕ) (aggregates : List Aggregate) (parts : List (Part Value))
        (groups : List (GroupRow Value)) → All (IsPart value_cmp count aggregates) parts
        → AreMerged value_cmp shape count aggregates (all_groups parts) groups
        ↔ AreGroups value_cmp shape count aggregates (all_rows parts) groups }
{}

/// Parts of lineorder that can each be loaded with the same dimensions can be loaded together, if
/// the spans of their keys are disjoint and they have no more records than a table may have.
pub fn parts_are_loadable()
    ensures { (most : ℕ) (texts : TableTexts) (part : LineorderPart) (parts : List LineorderPart)
        → All (IsLoadablePart most texts) (part ∷ parts) → AreDisjoint (part ∷ parts)
        → length (records_in (whole_text (part ∷ parts))) ≤ most
        → IsLoadable most (with_lineorder_text texts (whole_text (part ∷ parts))) }
{}

/// The facts of lineorder follow from those of its parts: row counts are added, and bounds are joined
/// to their hull, without those of parts that have no rows.
pub fn facts_are_made_of_those_of_parts()
    ensures { (database : Database) (rows more : List (List Value)) (a b : Facts)
        → AreFactsOf (with_lineorder database rows) a → AreFactsOf (with_lineorder database more) b
        → AreFactsOf (with_lineorder database (rows ++ more)) (joined_facts a b) }
{}
