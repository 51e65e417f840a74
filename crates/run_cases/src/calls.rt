//! Calls of a host. A case has besides what its host is made of (module `hosts`):
//!
//! - `calls`, each a list: `["pick", slot, slice, answer]`; `["swap"]`, which gives the swap of the case;
//!   `["give", milliseconds]`, an advance; `["item", milliseconds, slice, list]`, `["settle", slice, list]` and
//!   `["rounds", slice, list]`, where the chooser goes by the list
//! - `journal`: the picks that the host is to have kept then (module `journals`); and `page`, where the case
//!   says: the page that it is to show
ghost use Rattle.std.specs.Prelude.{◌<◌, ◌≤◌, IfSome, OnSome};
ghost use Rattle.run_cases.specs.Ready.{IsReady};

use crate::hosts::{Hosted, host_of, number_at};
use crate::journals::{journal_of, wanted_journal};
use adhost_run::{Host, HostItem};
use life_laws::Picked;
use part_cases::list_at;
use serde_json::Value;
use std::alloc::Global;
use turn_sched::Listed;

// The most items that a host may be given, and the longest advance.
const MOST_ITEMS: u32 = 4096;

const MOST_MS: u32 = 60_000;

/// Whether the calls of a case are answered, and leave the host, as is wanted.
pub fn calls_as_wanted(alloc: Global, case: &Value) -> Option<bool> {
    let mut hosted = host_of(alloc, case)?;
    is_called(alloc, &mut hosted, case)
}

fn is_called(alloc: Global, hosted: &mut Hosted, case: &Value) -> Option<bool>
    requires { IsReady hosted.old }
{
    if !are_answered(alloc, hosted, list_at(case, "calls")?)? {
        return Some(false);
    }
    let journal = journal_of(alloc, &hosted.host)?;
    Some(journal == wanted_journal(alloc, case)? && shows_page(alloc, &hosted.host, case)?)
}

// Whether the page is as a case says, where it says.
fn shows_page(alloc: Global, host: &Host, case: &Value) -> Option<bool> {
    let Some(wanted) = case.get("page").and_then(Value::as_str) else {
        return Some(true);
    };
    let mut page = Vec::new(alloc);
    if host.print_page(alloc, &mut page).is_err() {
        return None;
    }
    Some(page.as_slice() == wanted.as_bytes())
}

// Whether calls are answered as is wanted.
fn are_answered(alloc: Global, hosted: &mut Hosted, calls: &[Value]) -> Option<bool>
    requires { IsReady hosted.old }
{
    'calls: for call in calls {
        if !is_answered(alloc, hosted, call.as_array()?)? {
            return Some(false);
        }
    }
    Some(true)
}

// Whether a call is answered as is wanted.
fn is_answered(alloc: Global, hosted: &mut Hosted, call: &[Value]) -> Option<bool>
    requires { IsReady hosted.old }
    ensures { OnSome result (IsReady hosted.new) }
{
    match call.first().and_then(Value::as_str) {
        Some("pick") => is_picked(alloc, hosted, call),
        Some("swap") => give_swap(alloc, hosted),
        Some("give") => give(hosted, call),
        Some("item") => item(alloc, hosted, call),
        Some("settle") => settle(alloc, hosted, call),
        Some("rounds") => rounds(alloc, hosted, call),
        _ => None,
    }
}

// Whether a pick answers as is wanted.
fn is_picked(alloc: Global, hosted: &mut Hosted, call: &[Value]) -> Option<bool>
    requires { IsReady hosted.old }
    ensures { OnSome result (IsReady hosted.new) }
{
    let slot = number_at(call, 1)?;
    let slice = slice_at(call, 2)?;
    if slot >= hosted.slots {
        return None;
    }
    match hosted.host.pick(alloc, slot, slice) {
        Ok(picked) => Some(is_answer(alloc, picked, call.get(3))?),
        Err(_) => return None,
    }
}

// Whether a pick is to answer so.
fn is_answer(alloc: Global, picked: Picked, wanted: Option<&Value>) -> Option<bool> {
    let answer = words_of(alloc, picked)?;
    Some(wanted?.as_str()? == answer.as_str())
}

fn words_of(alloc: Global, picked: Picked) -> Option<String> {
    match picked {
        Picked::Idle => String::from_str(alloc, "Idle").ok(),
        Picked::Unfinished { spent } => format!(in alloc; "Unfinished {spent}").ok(),
        Picked::Ended => String::from_str(alloc, "Ended").ok(),
    }
}

// The swap of the case is given.
fn give_swap(alloc: Global, hosted: &mut Hosted) -> Option<bool>
    requires { IsReady hosted.old }
    ensures { OnSome result (IsReady hosted.new) }
{
    if hosted.to >= hosted.slots || hosted.given >= MOST_ITEMS {
        return None;
    }
    let Some(content) = hosted.left.take() else {
        return None;
    };
    match hosted.host.give_swap(alloc, hosted.to, content) {
        Ok(()) => {
            hosted.given += 1;
            Some(true)
        }
        Err(_) => return None,
    }
}

// An advance is given.
fn give(hosted: &mut Hosted, call: &[Value]) -> Option<bool>
    requires { IsReady hosted.old }
    ensures { OnSome result (IsReady hosted.new) }
{
    let ms = advance_at(call, 1)?;
    if hosted.given >= MOST_ITEMS {
        return None;
    }
    match hosted.host.give(HostItem::Advance(ms)) {
        Ok(()) => {
            hosted.given += 1;
            Some(true)
        }
        Err(_) => return None,
    }
}

// An advance is given, and the host settles.
fn item(alloc: Global, hosted: &mut Hosted, call: &[Value]) -> Option<bool>
    requires { IsReady hosted.old }
    ensures { OnSome result (IsReady hosted.new) }
{
    let ms = advance_at(call, 1)?;
    let slice = slice_at(call, 2)?;
    let mut chooser = listed_at(alloc, call, 3)?;
    if hosted.given >= MOST_ITEMS {
        return None;
    }
    let item = HostItem::Advance(ms);
    match hosted.host.item(alloc, item, &mut chooser, slice) {
        Ok(()) => {
            hosted.given += 1;
            Some(true)
        }
        Err(_) => return None,
    }
}

// The host settles.
fn settle(alloc: Global, hosted: &mut Hosted, call: &[Value]) -> Option<bool>
    requires { IsReady hosted.old }
    ensures { OnSome result (IsReady hosted.new) }
{
    let slice = slice_at(call, 1)?;
    let mut chooser = listed_at(alloc, call, 2)?;
    match hosted.host.settle(alloc, &mut chooser, slice) {
        Ok(()) => Some(true),
        Err(_) => return None,
    }
}

// The host settles, with rounds of posts to their end.
fn rounds(alloc: Global, hosted: &mut Hosted, call: &[Value]) -> Option<bool>
    requires { IsReady hosted.old }
    ensures { OnSome result (IsReady hosted.new) }
{
    let slice = slice_at(call, 1)?;
    let mut chooser = listed_at(alloc, call, 2)?;
    match hosted.host.rounds(alloc, &mut chooser, slice) {
        Ok(()) => Some(true),
        Err(_) => return None,
    }
}

// The slice at a place of a call.
fn slice_at(call: &[Value], at: usize) -> Option<u32>
    ensures { IfSome result (λ slice. 0 < slice) }
{
    let slice = number_at(call, at)?;
    if slice == 0 {
        return None;
    }
    Some(slice)
}

// The milliseconds at a place of a call.
fn advance_at(call: &[Value], at: usize) -> Option<u32>
    ensures { IfSome result (λ ms. ms ≤ 60000) }
{
    let ms = number_at(call, at)?;
    if ms > MOST_MS {
        return None;
    }
    Some(ms)
}

// A chooser that goes by the list at a place of a call.
fn listed_at(alloc: Global, call: &[Value], at: usize) -> Option<Listed> {
    let numbers = call.get(at)?.as_array()?;
    let mut list = Vec::new(alloc);
    for place in 0..numbers.len() {
        list.push(number_at(numbers, place)?).ok()?;
    }
    Some(Listed { list, at: 0 })
}
