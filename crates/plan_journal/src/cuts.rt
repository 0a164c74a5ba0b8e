//! Texts cut into lines and words.
ghost use Rattle.std.specs.Prelude.{◌≡◌, ◌==◌, MatchOption, Some, None, position, false};
ghost use Rattle.plan_journal.specs.Cuts as spec;

/// A text up to the first place of a byte, and what stands behind that place.
pub(crate) fn cut_at(mark: u8, text: &[u8]) -> Option<(&[u8], &[u8])>
    ensures { MatchOption result (spec.cut_at mark text.now ≡ None)
        (λ parts. spec.cut_at mark text.now ≡ Some (parts.0.now, parts.1.now)) }
{
    match place_of(mark, text) {
        Some(place) => Some((&text[..place], &text[place + 1..])),
        None => None,
    }
}

/// The first place of a byte.
fn place_of(mark: u8, text: &[u8]) -> Option<usize>
    ensures { result ≡ position (λ byte. byte == mark) text.now }
{
    text.iter().position(|byte| *byte == mark)
}

/// Whether the text is words that single spaces part.
pub(crate) fn parts_singly(text: &[u8]) -> bool
    ensures { result ≡ spec.parts_singly false text.now }
{
    let mut is_behind_word = false;
    for byte in text {
        if *byte == b'\t' {
            return false;
        }
        if *byte == b' ' && !is_behind_word {
            return false;
        }
        is_behind_word = *byte != b' ';
    }
    is_behind_word
}
