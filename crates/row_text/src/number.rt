//! Numbers in decimal digits.
ghost use Rattle.std.specs.Prelude.{◌≡◌, ◌<◌, ◌≤◌, ◌^◌, length, IfOk};
ghost use Rattle.std.specs.List.{list_all};
ghost use Rattle.std.specs.Char.{is_ascii_digit};
ghost use Rattle.row_text.specs.Number as spec;

use plan_schema::Rule;

/// The number from `low` to `high` that the text is, or the rule that it breaks. A number may have any count of digits:
/// one that is too large for 64 bits is out of range.
#[tactic(auto, using(crate::proofs::Numbers::number_from_grows), unfolding(crate::specs::Number::number_of))]
pub fn read_number(text: &[u8], low: u64, high: u64) -> Result<u64, Rule>
    requires { high < 2 ^ 60 }
    ensures value { result ≡ spec.number_of low high text.now }
    ensures range { IfOk result (λ n. (low ≤ n) × (n ≤ high)) }
{
    if !is_number(text) {
        return Err(Rule::Shape);
    }
    let mut value = 0;
    for b in text {
        value = value * 10 + u64::from(b.saturating_sub(b'0'));
        if value > high {
            return Err(Rule::Range);
        }
    }
    if value < low {
        return Err(Rule::Range);
    }
    Ok(value)
}

/// Whether the text is decimal digits without a leading zero, or `0` alone.
pub(crate) fn is_number(text: &[u8]) -> bool
    ensures { result ≡ spec.is_number text.now }
{
    if !is_digits(text) {
        return false;
    }
    match text {
        [] => false,
        [_] => true,
        [first, ..] => *first != b'0',
    }
}

/// Whether each byte is a decimal digit.
pub fn is_digits(text: &[u8]) -> bool
    ensures { result ≡ list_all is_ascii_digit text.now }
{
    text.iter().all(|b| b.is_ascii_digit())
}
