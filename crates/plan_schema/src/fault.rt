//! What is wrong with a field of a row.
ghost use Rattle.std.specs.Prelude.{◌≡◌};

/// The rule that a field breaks.
#[derive(Clone, Copy, Debug)]
pub enum Rule {
    /// A field of the wrong form, one that is missing, or the first one too many.
    Shape,
    /// A number of the right form outside its range.
    Range,
    /// A date of the right form that is no day from 2000-01-01 to 2099-12-31.
    Date,
    /// A part that would be its own component.
    Own,
}

/// The first faulty field of a row, and the rule that it breaks. Field 0 is the table word.
#[derive(Clone, Copy, Debug)]
pub struct FieldFault {
    pub field: u32,
    pub rule: Rule,
}

impl FieldFault {
    /// That the field with this number breaks the rule.
    pub fn at(field: u32, rule: Rule) -> FieldFault
        ensures { result ≡ record { field = field; rule = rule } }
    {
        FieldFault { field, rule }
    }
}
