//! What an error says of itself, for whoever sits at a terminal.
ghost use Rattle.std.specs.Prelude.{IfOk, IfSome};
ghost use Rattle.n2kdec.specs.Fault.Reason.{IsWithoutNumber};

use crate::command_line::words::Word;
use std::alloc::{AllocError, Global};
use std::fmt::Display;

/// An error's text without its number.
fn without_number(text: &str) -> &str
    ensures { IsWithoutNumber text.now result.now }
{
    match text.split_once(" (os error ") {
        Some((words, _)) => words,
        None => text,
    }
}

/// The words that an error has for itself, as `No such file or directory`.
pub fn words_of<T: Display>(alloc: Global, error: &T) -> Result<Word, AllocError>
    ensures { IfOk result (λ words. IfSome (T.output error.now) (λ text. IsWithoutNumber text words)) }
{
    let text = error.to_string(alloc)?;
    Word::new(alloc, without_number(text.as_str()))
}
