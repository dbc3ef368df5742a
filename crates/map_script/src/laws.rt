//! Laws of reading, as clauses of a function that does nothing.

ghost use Rattle.std.specs.Prelude.{◌≡◌, ℕ, List, ◌∷◌, ◌++◌, true};
ghost use Rattle.map_script.specs.declared.script.Form as forms;
ghost use Rattle.map_script.specs.Lines.{is_blank};
ghost use Rattle.map_script.specs.Reading.{read_as};
ghost use Rattle.map_script.specs.SameLines.{in_one_line, ends_line};

/// What a comment holds, and how many blanks of which kind stand somewhere, changes nothing of what a text is read as, be it
/// a script or a fault at a line. A comment goes from a `#` to the end of its line, and may be left out; one blank may stand
/// for another, and one for two; and a blank at the end or at the beginning of a line may be left out.
pub fn reading_laws()
    ensures comment { (form : forms.Form) (before comment rest : List ℕ)
        → in_one_line comment ≡ true → ends_line rest ≡ true
        → read_as form (before ++ 35 ∷ (comment ++ rest)) ≡ read_as form (before ++ rest) }
    ensures blank { (form : forms.Form) (before rest : List ℕ) (b c : ℕ) → is_blank b ≡ true
        → is_blank c ≡ true
        → read_as form (before ++ b ∷ rest) ≡ read_as form (before ++ c ∷ rest) }
    ensures blanks { (form : forms.Form) (before rest : List ℕ) (b c : ℕ) → is_blank b ≡ true
        → is_blank c ≡ true
        → read_as form (before ++ b ∷ c ∷ rest) ≡ read_as form (before ++ c ∷ rest) }
    ensures at_end { (form : forms.Form) (before rest : List ℕ) (b : ℕ) → is_blank b ≡ true
        → ends_line rest ≡ true
        → read_as form (before ++ b ∷ rest) ≡ read_as form (before ++ rest) }
    ensures at_begin { (form : forms.Form) (before rest : List ℕ) (b : ℕ) → is_blank b ≡ true
        → read_as form (before ++ 10 ∷ b ∷ rest) ≡ read_as form (before ++ 10 ∷ rest) }
    ensures first { (form : forms.Form) (rest : List ℕ) (b : ℕ) → is_blank b ≡ true
        → read_as form (b ∷ rest) ≡ read_as form rest }
{}
