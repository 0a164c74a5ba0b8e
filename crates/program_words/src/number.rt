//! The numbers of a command line.
ghost use Rattle.std.specs.Prelude.{◌≡◌, ◌<◌};
ghost use Rattle.program_words.specs.Words as spec;

use plan_schema::Rule;
use row_text::read_number;

/// The number from 1 to `high` that a word is.
pub(crate) fn number_to(high: u32, word: &str) -> Option<u32>
    ensures { result ≡ spec.number_in 1 high word.now }
{
    match read_number(word.as_bytes(), 1, u64::from(high)) {
        Ok(number) => Some(number as u32),
        Err(_) => None,
    }
}

/// The number of 64 bits that a word is. `read_number` tells its form alone, since it reads no more than 60 bits.
#[tactic(auto, using(crate::proofs::LongNumbers::long_read, crate::proofs::LongNumbers::no_number))]
pub(crate) fn long_number(word: &str) -> Option<u64>
    ensures { result ≡ spec.number_in 0 18446744073709551615 word.now }
{
    match read_number(word.as_bytes(), 0, 0) {
        Err(Rule::Shape) => None,
        _ => word.parse::<u64>().ok(),
    }
}
