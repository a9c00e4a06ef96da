//! Laws of the world of a program: functions with empty bodies, whose clauses are the laws.

ghost use Rattle.star_schema.specs.{Database.Database, Loadable.IsSound};
ghost use Rattle.star_program.specs.World.{IsLoaded};
ghost use Rattle.star_world.specs.{RowsSeen.IsWorldOf, WorldOf.world_of};

/// States that in the world of sound rows each column's bounds hold its numbers, each code of a
/// column is less than the number of its distinct texts, and each foreign key is found.
pub fn sound_rows_are_loaded()
    ensures { (database : Database) → IsSound database → IsLoaded (world_of database) }
{}

/// States that the world of sound rows is a world of these rows: it has their numbers, codes that
/// compare as the texts do, and the one row of each key.
pub fn sound_rows_have_a_world()
    ensures { (database : Database) → IsSound database → IsWorldOf database (world_of database) }
{}
