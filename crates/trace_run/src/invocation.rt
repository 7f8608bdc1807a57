//! What the words of an invocation ask for.
ghost use Rattle.std.specs.Prelude.{◌≡◌, map, string_bytes};
ghost use Rattle.trace_run.specs.Commands.{number_up_to, invocation_by, invocation_with, invocation_of};

use crate::batch::MAX_BATCH_ITEMS;
use crate::script::{Command, command_by, command_with};
use trace_lines::read::u128_of;

/// What an invocation of the program asks for.
#[derive(Clone, Copy, Debug, PartialEq, Eq)]
pub enum Invocation {
    /// A command that needs no threads.
    WithoutThreads { command: Command },
    /// To run a script, and to tell its records in batches of a size, whose texts threads make.
    Batch { size: u64 },
    /// To run a script for threads.
    Threads,
}

/// What the words ask for, if it is something that the program does.
pub fn invocation_of(words: &[String]) -> Option<Invocation>
    ensures { result ≡ invocation_of (map string_bytes words.now) }
{
    match words {
        [word] => invocation_by(word.as_str()),
        [word, number] => invocation_with(word.as_str(), number.as_str()),
        _ => None,
    }
}

// What a word alone asks for.
fn invocation_by(word: &str) -> Option<Invocation>
    ensures { result ≡ invocation_by word.now }
{
    match word {
        "threads" => Some(Invocation::Threads),
        _ => {
            let command = command_by(word)?;
            Some(Invocation::WithoutThreads { command })
        }
    }
}

// What a word asks for with a number.
fn invocation_with(word: &str, number: &str) -> Option<Invocation>
    ensures { result ≡ invocation_with word.now number.now }
{
    match word {
        "batch" => {
            let size = number_up_to(MAX_BATCH_ITEMS, number)?;
            Some(Invocation::Batch { size })
        }
        _ => {
            let command = command_with(word, number)?;
            Some(Invocation::WithoutThreads { command })
        }
    }
}

/// A number from 1 to a greatest one, by its decimal.
pub(crate) fn number_up_to(most: u64, word: &str) -> Option<u64>
    ensures { result ≡ number_up_to most word.now }
{
    let number = u128_of(word)?;
    if number >= 1 && number <= most as u128 {
        Some(number as u64)
    } else {
        None
    }
}
