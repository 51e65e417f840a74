//! The lines of a report, as data.
ghost use Rattle.std.specs.Prelude.{◌≡◌};
ghost use Rattle.trace_text.specs.Report.{rule_mark, rule_number, state_name};

use code_units::{Place, Text};

/// The number of a markup rule or of a script rule.
#[derive(Clone, Copy, PartialEq, Eq)]
pub enum Rule {
    /// A markup rule, `M01` to `M12`.
    M(u8),
    /// A script rule, `A01` to `A20`.
    A(u8),
}

impl Rule {
    // What stands before its number: the letter, and a zero before a single digit.
    pub(crate) fn mark(&self) -> &'static str
        ensures { result.now ≡ rule_mark self.now }
    {
        match self {
            Rule::M(..10) => "M0",
            Rule::M(_) => "M",
            Rule::A(..10) => "A0",
            Rule::A(_) => "A",
        }
    }

    pub(crate) fn number(&self) -> u8
        ensures { result ≡ rule_number self.now }
    {
        match self {
            Rule::M(number) | Rule::A(number) => *number,
        }
    }
}

/// How a life stands at its end.
#[derive(Clone, Copy, PartialEq, Eq)]
pub enum State {
    /// It can go on.
    Live,
    /// It was stopped, by the first of its means that ran out.
    Fuel,
    Number,
    Depth,
    Cells,
    Slots,
    Units,
    LongText,
    Nodes,
}

impl State {
    pub(crate) fn name(&self) -> &'static str
        ensures { result.now ≡ state_name self.now }
    {
        match self {
            State::Live => "live",
            State::Fuel => "fuel",
            State::Number => "number",
            State::Depth => "depth",
            State::Cells => "cells",
            State::Slots => "slots",
            State::Units => "units",
            State::LongText => "longtext",
            State::Nodes => "nodes",
        }
    }
}

/// What a life did. `until` is the position of the swap that ended it, counted from 1.
#[derive(Drop)]
pub struct RunText {
    pub name: Text,
    pub until: Option<u32>,
    pub state: State,
    pub turns: u32,
    pub spent: u64,
    pub missed: u32,
    pub gone: u32,
    pub log: Vec<Text>,
    pub uncaught: Vec<Text>,
}

/// A line of a report.
#[derive(Drop)]
pub enum Line {
    /// What a life did.
    Ran(RunText),
    /// The same without its log and its uncaught notes.
    Short(RunText),
    /// The first rule that the file of a life breaks, and where. `until` is as in `RunText`.
    Refused {
        name: Text,
        until: Option<u32>,
        file: String,
        rule: Rule,
        at: Place,
    },
    /// The file of a slot breaks no rule.
    Accepted {
        name: Text,
        file: String,
    },
    /// The library of a file breaks no rule.
    LibAccepted {
        file: String,
    },
    /// The first rule that the library of a file breaks, and where.
    LibRefused {
        file: String,
        rule: Rule,
        at: Place,
    },
    /// The text of the page, in UTF-8.
    Page {
        text: Vec<u8>,
    },
}
