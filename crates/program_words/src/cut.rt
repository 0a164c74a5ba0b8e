//! The words after a command, cut into the option's values and names.
ghost use Rattle.std.specs.Prelude.{◌≡◌, false, None, Some, Err, IfOk, map, string_bytes};
ghost use Rattle.program_words.specs.Cut as spec;
ghost use Rattle.program_words.specs.Parser.{cut_of};

use crate::fault::WordFault;
use clap::error::ErrorKind;
use clap::{Arg, ArgAction, ArgMatches, Command};
use std::alloc::Global;

/// The values of `--memo`, by the id `memo`, and all other words, by the id `names`.
pub(crate) fn cut_words<'a>(alloc: Global, words: &'a [String]) -> Result<ArgMatches<'a>, WordFault>
    ensures ok { IfOk result (λ matches.
        spec.cut_words (map string_bytes words.entry.now) false ≡ Some (cut_of matches)) }
    ensures err { result ≡ Err WordFault.Words
        → spec.cut_words (map string_bytes words.entry.now) false ≡ None }
{
    let memo = Arg::new(alloc, "memo")
        .long("memo")
        .action(ArgAction::Append);
    let names = Arg::new(alloc, "names").action(ArgAction::Append);
    let command = Command::new(alloc, "response")
        .no_binary_name(true)
        .disable_help_flag(true);
    let Ok(command) = command.arg(memo) else {
        return Err(WordFault::Memory);
    };
    let Ok(command) = command.arg(names) else {
        return Err(WordFault::Memory);
    };
    match command.try_get_matches_from(words) {
        Ok(matches) => Ok(matches),
        Err(error) => match error.kind() {
            ErrorKind::OutOfMemory => Err(WordFault::Memory),
            _ => Err(WordFault::Words),
        },
    }
}
