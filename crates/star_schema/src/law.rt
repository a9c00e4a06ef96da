//! Laws of dictionaries and codes: functions with empty bodies, whose clauses are the laws.

ghost use Rattle.std.specs.{Prelude.{◌≡◌, ◌↔◌, ◌+◌, ℕ, List, Contains, nat_lt}, Ordering.{is_lt, is_le, nat_cmp}};
ghost use Rattle.star_schema.specs.Dictionary.{text_cmp, dictionary_of, low_in, high_in, IsDictionary, HasCode};

/// States that any texts have exactly one dictionary.
pub fn texts_have_one_dictionary()
    ensures { (dictionary texts : List (List ℕ))
        → IsDictionary dictionary texts ↔ (dictionary ≡ dictionary_of texts) }
{}

/// States that each text of a column has one code: the number of smaller texts in the dictionary.
pub fn texts_have_one_code()
    ensures some { (texts : List (List ℕ)) (text : List ℕ)
        → Contains texts text → HasCode texts text (low_in (dictionary_of texts) text) }
    ensures one { (texts : List (List ℕ)) (text : List ℕ) (code : ℕ)
        → HasCode texts text code → code ≡ low_in (dictionary_of texts) text }
    ensures next { (texts : List (List ℕ)) (text : List ℕ) (code : ℕ)
        → HasCode texts text code → high_in (dictionary_of texts) text ≡ code + 1 }
{}

/// States that codes compare as their texts do, with one another and with the counts of `low` and
/// `high` for any text.
pub fn codes_compare_as_texts()
    ensures codes { (texts : List (List ℕ)) (a b : List ℕ) (m n : ℕ)
        → HasCode texts a m → HasCode texts b n → nat_cmp m n ≡ text_cmp a b }
    ensures low { (texts : List (List ℕ)) (text bound : List ℕ) (code : ℕ) → HasCode texts text code
        → nat_lt code (low_in (dictionary_of texts) bound) ≡ is_lt (text_cmp text bound) }
    ensures high { (texts : List (List ℕ)) (text bound : List ℕ) (code : ℕ)
        → HasCode texts text code
        → nat_lt code (high_in (dictionary_of texts) bound) ≡ is_le (text_cmp text bound) }
{}
