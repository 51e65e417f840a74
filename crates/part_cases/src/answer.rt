//! What comes of a case.
use std::fmt::Write;

/// What comes of a case.
#[derive(Drop)]
pub enum Answer {
    /// A text, with the ends of its lines.
    Text(String),
    /// A word.
    Word(&'static str),
    /// A word, and a number behind it.
    At(&'static str, usize),
    /// A number, and a word behind it.
    Count(usize, &'static str),
    /// Whether something is so.
    Is(bool),
}

/// Writes what comes of a case, where something does.
pub fn push_answer(answer: &Option<Answer>, out: &mut String) -> Option<()> {
    match answer {
        Some(Answer::Text(text)) => out.push_str(text.as_str()).ok(),
        Some(Answer::Word(word)) => write!(out, "{word}\n").ok(),
        Some(Answer::At(word, at)) => write!(out, "{word} {at}\n").ok(),
        Some(Answer::Count(many, word)) => write!(out, "{many} {word}\n").ok(),
        Some(Answer::Is(so)) => write!(out, "{so}\n").ok(),
        None => out.push_str("no answer\n").ok(),
    }
}

/// The text of UTF-8.
pub fn text_answer(bytes: Vec<u8>) -> Option<Answer> {
    Some(Answer::Text(String::from_utf8(bytes).ok()?))
}
