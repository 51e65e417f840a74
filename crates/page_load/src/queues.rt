//! The queue of a life that begins.
ghost use Rattle.std.specs.Prelude.{◌≡◌, ◌<◌, ◌≤◌, ◌++◌, ◌^◌, List, [], ◌∷◌, IfOk, OnOk, length, take};
ghost use Rattle.js_tree.specs.Trees.{program_of};
ghost use Rattle.js_names.specs.declared.code.Code.{Code as CodeOf};
ghost use Rattle.js_names.specs.Code.{tree_in, trees_of};
ghost use Rattle.widget_meaning.specs.Alone.{call_parts};
ghost use Rattle.page_load.specs.Queues.{IsQueued, IsScriptIn, go_works, libraries_works, library_works, program_with, programs_of};

use crate::opening::handed;
use code_units::Memory;
use js_names::Code;
use slot_picks::{Script, Work};
use std::alloc::Global;
use std::collections::VecDeque;

/// No memory holds more scripts of one widget.
const MOST_SCRIPTS: usize = 0x8000_0000;

// What the script with a number hands over.
fn script_with(codes: &[Code], n: u32) -> Result<Option<Script>, Memory>
    ensures { IfOk result (IsScriptIn (trees_of codes.now) (program_with codes.now n)) }
{
    let at = n as usize;
    if at >= codes.len() {
        return Ok(None);
    }
    match handed(codes[at].tree())? {
        Some(handed) => Ok(Some(Script {
            code: n,
            fun: handed.fun,
            name: handed.name,
        })),
        None => Ok(None),
    }
}

// The load turn of a library comes behind a queue.
fn push_library(codes: &[Code], n: u32, queue: &mut VecDeque<Work>) -> Result<(), Memory>
    ensures { OnOk result (IsQueued (trees_of codes.now) queue.old.items queue.new.items
        (library_works (call_parts (program_with codes.now n)))) }
{
    if let Some(script) = script_with(codes, n)? {
        queue.push_back(Work::Library(script))?;
    }
    Ok(())
}

// The turn of the `go` function comes behind a queue.
fn push_go(codes: &[Code], n: u32, queue: &mut VecDeque<Work>) -> Result<(), Memory>
    ensures { OnOk result (IsQueued (trees_of codes.now) queue.old.items queue.new.items
        (go_works (call_parts (program_with codes.now n)))) }
{
    if let Some(script) = script_with(codes, n)? {
        queue.push_back(Work::Go(script))?;
    }
    Ok(())
}

// The load turns of the first so many scripts come behind a queue.
fn push_libraries(codes: &[Code], many: u32, queue: &mut VecDeque<Work>) -> Result<(), Memory>
    requires { many ≤ length codes.now }
    ensures { OnOk result (IsQueued (trees_of codes.now) queue.old.items queue.new.items
        (libraries_works (programs_of (take many codes.now)))) }
{
    'libs: for n in 0..many {
        push_library(codes, n, queue)?;
    }
    Ok(())
}

/// The load turns of a widget with these scripts, of which the last is its own.
pub(crate) fn load_turns(alloc: Global, codes: &[Code]) -> Result<VecDeque<Work>, Memory>
    requires { 0 < length codes.now }
    ensures queued { IfOk result (λ queue. (libs : List CodeOf) (script : CodeOf) → codes.now ≡ libs ++ script ∷ []
        → IsQueued (trees_of codes.now) [] queue.items
        (libraries_works (programs_of libs) ++ go_works (call_parts (program_of (tree_in script))))) }
    ensures few { OnOk result (length codes.now ≤ 2 ^ 31) }
{
    if codes.len() > MOST_SCRIPTS {
        return Err(Memory);
    }
    let last = (codes.len() - 1) as u32;
    let mut queue = VecDeque::new(alloc);
    push_libraries(codes, last, &mut queue)?;
    push_go(codes, last, &mut queue)?;
    Ok(queue)
}
