// Laws about the texts of programs.

ghost use Rattle.std.specs.Prelude.{◌≡◌, ◌↔◌, ℕ, List, None};
ghost use Rattle.star_program.specs.{declared.program.Parts.Parts, Limits.IsWithinLimits, Text.FirstFaults.program_text_fault, Text.Spellable.OnlySpellable, Text.Spellable.Written, Text.Spellable.WrittenBack, Text.Spelling.OneProgram, Text.Spelling.Spells};

/// States that no text spells two programs.
pub fn no_text_spells_two_programs()
    ensures { OneProgram }
{}

/// States that a text has no error exactly if it spells a program within the limits.
pub fn texts_without_a_fault_spell_programs()
    ensures { (text : List ℕ) → (program_text_fault text ≡ None)
        ↔ ((p : Parts) × Spells text p × IsWithinLimits p) }
{}

/// States that the text of a program spells the program if some text does, that is, if each of its
/// statements can be written.
pub fn spelled_programs_are_written_back()
    ensures written { Written }
    ensures only { OnlySpellable }
    ensures back { WrittenBack }
{}
