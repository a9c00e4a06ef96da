//! Properties of the content of puts and of the condition of a put that follow from the
//! definitions.

ghost use Rattle.std.specs.Prelude.{◌≡◌, ◌<◌, ◌^◌, ℕ, All, List, ◌∷◌, false, true, length};
ghost use Rattle.star_schema.specs.{Groups.numbers_for, declared.group.Aggregate.TheVariants.Sum};
ghost use Rattle.star_interval.specs.Range.{is_i64};
ghost use Rattle.star_group.specs.{Stores.{AddUp, AreOfContent, Group, HasRoom, IsContent}, OneMore.IsWithPut};
ghost use Rattle.star_program.specs.Puts.{Update, aggregate_at, overflows};

/// Every list of puts has a content.
pub fn puts_have_content()
    ensures { (d : Group) (puts : List Update) → (content : List Update) × IsContent d puts content }
{}

/// A content with one put more is a content of the puts and it: the put's key list has the numbers
/// that it had with those of the put, and each other key list what it had.
pub fn one_put_changes_one_entry()
    ensures { (d : Group) (puts content after : List Update) (put : Update) → IsContent d puts content
        → IsWithPut d put content after → IsContent d (put ∷ puts) after }
{}

/// The groups of puts are those of their content's key lists, each there once, and their aggregates
/// are functions of the content: the sums and the counts of its key lists are added, and of the
/// least and the greatest numbers the least and the greatest are taken.
pub fn groups_are_of_content()
    ensures { (d : Group) (puts content : List Update) → IsContent d puts content
        → AreOfContent d puts content }
{}

/// If the sums by key list add up within 128 bits and the counts within 64, no aggregate of a row
/// leaves its bits.
pub fn room_is_enough()
    ensures { (d : Group) (puts : List Update) (put : Update) → HasRoom d (put ∷ puts)
        → overflows d.shape d.aggregates puts put ≡ false }
{}

/// If the numbers themselves add up within 128 bits, the sums by key list do too.
pub fn small_numbers_have_room()
    ensures { (d : Group) (puts : List Update)
        → ((index : ℕ) → index < length d.aggregates → aggregate_at d.aggregates index ≡ Sum
        → AddUp (numbers_for index puts)) → length puts < 2 ^ 63 → HasRoom d puts }
{}

/// Fewer than 2^63 puts of numbers of 64 bits have room: how many puts there can be is enough.
pub fn few_numbers_have_room()
    ensures { (d : Group) (puts : List Update)
        → All (λ put. All (λ z. is_i64 z ≡ true) put.values) puts → length puts < 2 ^ 63
        → HasRoom d puts }
{}
