//! What has been read since the last element.

/// Where units go: to a text or to the value of an attribute.
#[derive(Clone, Copy, Drop)]
pub enum Run {
    Text,
    Value,
}

/// A named reference.
#[derive(Clone, Copy, Drop)]
pub enum Named {
    Amp,
    Lt,
    Gt,
    Quot,
    Nbsp,
}

/// A reference whose front is read.
#[derive(Clone, Copy, Drop)]
pub enum Referring {
    Ampersand,
    /// And how much of the name.
    Named(Named, usize),
    /// How many digits, and their value.
    Number(u32, u32),
}

/// Where the reader stands.
#[derive(Clone, Copy, Drop)]
pub enum Mode {
    /// Behind an element, or where content begins.
    Between,
    In(Run),
    Refers(Run, Referring),
    /// Behind `<`.
    Begun,
    TagName,
    /// Behind a value.
    Valued,
    /// Behind blanks in a head.
    Spaced,
    AttributeName,
    /// Behind `=`.
    Assigned,
    /// Behind the `/` of a void element.
    Slashed,
    /// In an end tag, and how much of its name is read.
    Ending(usize),
    /// Behind the name of an end tag.
    Ended,
    /// In a script.
    InRaw,
    /// In a script, behind `<`.
    RawBegun,
    /// In a script, behind `</`, and how much of the name is read.
    RawEnding(usize),
}
