//! The columns of a query, and its comparisons.
ghost use Rattle.std.specs.Prelude.{◌≡◌};
ghost use Rattle.query_language.specs.Words as spec;

use row_text::is_word;

/// A figure of a part.
#[derive(Clone, Copy)]
pub enum Column {
    /// The lead time in working days.
    Lead,
    /// The safety stock.
    Safety,
    /// What is on hand.
    Stock,
    /// The sum of all demands.
    Demand,
    /// The sum of all receipts.
    Receipt,
    /// How many parents there are.
    Parents,
    /// The gross requirements of the horizon.
    Gross,
    /// The planned receipts of the horizon.
    Planned,
    /// The planned releases of the horizon.
    Release,
    /// What should have been released before the horizon.
    Late,
    /// The least balance of the horizon.
    Low,
    /// The balance of the last day.
    Last,
}

/// A comparison with a number.
#[derive(Clone, Copy)]
pub enum Op {
    Eq,
    Ne,
    Lt,
    Le,
    Gt,
    Ge,
}

const COLUMNS: [Column; 12] = [
    Column::Lead,
    Column::Safety,
    Column::Stock,
    Column::Demand,
    Column::Receipt,
    Column::Parents,
    Column::Gross,
    Column::Planned,
    Column::Release,
    Column::Late,
    Column::Low,
    Column::Last,
];

impl Column {
    /// The column that a word names.
    #[tactic(auto, unfolding(crate::specs::Words::column_of))]
    pub(crate) fn read(word: &[u8]) -> Option<Column>
        ensures { result ≡ spec.column_of word.now }
    {
        COLUMNS
            .iter()
            .copied()
            .find(|column| is_word(word, column.word()))
    }

    /// The word of the column.
    fn word(self) -> &'static [u8]
        ensures { result.now ≡ spec.column_word self }
    {
        match self {
            Column::Lead => b"lead",
            Column::Safety => b"safety",
            Column::Stock => b"stock",
            Column::Demand => b"demand",
            Column::Receipt => b"receipt",
            Column::Parents => b"parents",
            Column::Gross => b"gross",
            Column::Planned => b"planned",
            Column::Release => b"release",
            Column::Late => b"late",
            Column::Low => b"low",
            Column::Last => b"last",
        }
    }
}
