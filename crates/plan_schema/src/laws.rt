//! What holds of reading and writing days.
ghost use Rattle.std.specs.Prelude.{◌≡◌, ℕ, List, true, Ok};
ghost use Rattle.plan_schema.specs.Day.{is_day, day_of, day_text};

/// The text of a day is read as that day, and no other text is read as it.
pub fn days_have_one_spelling()
    ensures again { (day : ℕ) → is_day day ≡ true → day_of (day_text day) ≡ Ok day }
    ensures alone { (text : List ℕ) (day : ℕ)
        → day_of text ≡ Ok day
        → (text ≡ day_text day) × (is_day day ≡ true) }
{}
