//! The questions on a text, by their first word.

use crate::{journals, layout, streams};
use console_command::Checker;
use plc_text::{NoMemory, Text};
use std::alloc::Global;

/// Adds the answer to a question on a text. `J` judges the texts.
pub fn tell<J: Checker>(
    alloc: Global,
    told: &mut Text,
    text: &str,
    question: &str,
    words: &str,
) -> Result<(), NoMemory> {
    match question {
        "check" | "play" => streams::tell::<J>(alloc, told, text, question, words),
        "copy" => streams::tell_copy(alloc, told, text, words),
        "journal" => journals::tell(alloc, told, text, words),
        "load" => journals::tell_load::<J>(alloc, told, words),
        _ => layout::tell::<J>(alloc, told, text, question, words),
    }
}
