//! Laws of loads: functions with empty bodies, whose clauses are the laws.

ghost use Rattle.std.specs.Prelude.{◌≡◌, ◌↔◌, ℕ, None};
ghost use Rattle.star_schema.specs.{Database.TableTexts, Loadable.IsLoadable};
ghost use Rattle.star_catalogue.specs.Load.{load_fault};

/// States that five texts have no error exactly if they can be loaded: each is its table, of at
/// most `most` rows, and their rows are sound.
pub fn texts_without_a_fault_are_loadable()
    ensures { (most : ℕ) (texts : TableTexts)
        → (load_fault most texts ≡ None) ↔ IsLoadable most texts }
{}
