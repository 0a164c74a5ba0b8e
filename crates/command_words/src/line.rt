//! Lines and their words.
ghost use Rattle.std.specs.Prelude.{◌≡◌};
ghost use Rattle.command_words.specs.Words as spec;

/// Whether a line that isn't too long has spaces and tabs alone, or nothing.
pub fn is_blank(line: &[u8]) -> bool
    ensures { result ≡ spec.is_blank line.now }
{
    line.iter().all(|byte| *byte == b' ' || *byte == b'\t')
}
