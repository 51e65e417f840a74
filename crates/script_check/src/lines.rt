//! What is written of a library: its line, or its tidied text.
ghost use Rattle.std.specs.Prelude.{◌≡◌, ◌<◌, ◌^◌, true, false, IfOk, length};
ghost use Rattle.code_units.specs.Places.{place_at};
ghost use Rattle.js_tree.specs.Trees.{program_of};
ghost use Rattle.js_print.specs.Tidy.{tidy};
ghost use Rattle.adsafe_rules.specs.Accepts.{tree_of};
ghost use Rattle.trace_text.specs.Report.{lib_accepted, lib_refused};
ghost use Rattle.trace_text.specs.declared.line.Rule.TheVariants as rules;
ghost use Rattle.script_check.specs.Line.{IsLine, IsTidied};

use crate::fault::ScriptFault;
use crate::judging::judge_script;
use adsafe_rules::{Accepted, Scope};
use code_units::{Memory, place_in};
use first_breach::Breach;
use js_print::print_tree;
use std::alloc::Global;
use trace_text::{Line, Rule, report_line};

/// What is written of a library or of slots, and whether it names a broken rule.
#[derive(Drop)]
pub struct JudgedText {
    pub refused: bool,
    pub bytes: Vec<u8>,
}

/// What is written of a library.
pub type LibraryText = JudgedText;

/// The line of `check-lib` on a library under its name (docs/PROGRAM.md, "The line").
pub fn library_line(alloc: Global, name: &str, library: &[u8]) -> Result<JudgedText, Memory>
    requires { length library.now < 2 ^ 31 }
    ensures { IfOk result (λ text. IsLine name.now library.now text.refused text.bytes.items) }
{
    match judge_script(alloc, &Scope::Lib, library) {
        Ok(accepted) => {
            drop(accepted);
            accepted_line(alloc, name)
        }
        Err(ScriptFault::Broken(breach)) => refused_line(alloc, name, library, breach),
        Err(ScriptFault::Memory) => Err(Memory),
    }
}

/// The text of `tidy` on a library (docs/PROGRAM.md, "The tidied text"): the one spelling of its
/// tree, or else the line of `check-lib`.
pub fn tidied_library(alloc: Global, name: &str, library: &[u8]) -> Result<JudgedText, Memory>
    requires { length library.now < 2 ^ 31 }
    ensures { IfOk result (λ text. IsTidied name.now library.now text.refused text.bytes.items) }
{
    match judge_script(alloc, &Scope::Lib, library) {
        Ok(accepted) => tidied_text(alloc, &accepted),
        Err(ScriptFault::Broken(breach)) => refused_line(alloc, name, library, breach),
        Err(ScriptFault::Memory) => Err(Memory),
    }
}

// The one spelling of an accepted tree.
fn tidied_text(alloc: Global, accepted: &Accepted) -> Result<JudgedText, Memory>
    ensures spelled { IfOk result (λ text. text.bytes.items ≡ tidy (program_of (tree_of accepted.now))) }
    ensures clean { IfOk result (λ text. text.refused ≡ false) }
{
    let mut bytes = Vec::new(alloc);
    print_tree(alloc, accepted.tree(), &mut bytes)?;
    Ok(JudgedText {
        refused: false,
        bytes,
    })
}

// The line of a library that breaks no rule.
fn accepted_line(alloc: Global, name: &str) -> Result<JudgedText, Memory>
    ensures line { IfOk result (λ text. text.bytes.items ≡ lib_accepted name.now) }
    ensures clean { IfOk result (λ text. text.refused ≡ false) }
{
    let line = Line::LibAccepted {
        file: String::from_str(alloc, name)?,
    };
    let mut bytes = Vec::new(alloc);
    report_line(&line, &mut bytes)?;
    Ok(JudgedText {
        refused: false,
        bytes,
    })
}

// The line of a library that breaks a rule.
fn refused_line(
    alloc: Global,
    name: &str,
    library: &[u8],
    breach: Breach,
) -> Result<JudgedText, Memory>
    requires { length library.now < 2 ^ 31 }
    ensures line { IfOk result
        (λ text. text.bytes.items ≡ lib_refused name.now (rules.A breach.rule) (place_at library.now breach.at)) }
    ensures refused { IfOk result (λ text. text.refused ≡ true) }
{
    let line = Line::LibRefused {
        file: String::from_str(alloc, name)?,
        rule: Rule::A(breach.rule),
        at: place_in(library, breach.at),
    };
    let mut bytes = Vec::new(alloc);
    report_line(&line, &mut bytes)?;
    Ok(JudgedText {
        refused: true,
        bytes,
    })
}
