//! Whether a text is a query.
ghost use Rattle.std.specs.Prelude.{◌≡◌, ◌≤◌, length};
ghost use Rattle.query_language.specs.Reading as spec;

use crate::fault::{QueryFault, QueryRule};
use crate::progress::Progress;
use crate::token::Tokens;

/// Whether the text is a query, or the first token that no query continues. Takes no memory.
#[tactic(auto, unfolding(crate::specs::Reading::check_of))]
pub fn check_query(text: &[u8]) -> Result<(), QueryFault>
    requires { length text.now ≤ 1024 }
    ensures { result ≡ spec.check_of text.now }
{
    let mut tokens = Tokens::of(text);
    let mut progress = Progress::new();
    while let Some((place, token)) = tokens.next() {
        match progress.step(token) {
            Ok((next, _)) => progress = next,
            Err(rule) => return Err(QueryFault { place, rule }),
        }
    }
    if progress.is_whole() {
        return Ok(());
    }
    Err(QueryFault {
        place: text.len() as u32,
        rule: QueryRule::End,
    })
}
