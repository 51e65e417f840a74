//! What is kept for a widget beside its nodes: handlers, marks, protected nodes, timers and the clock.
ghost use Rattle.std.specs.Prelude.{◌<◌, length};
ghost use Rattle.page_tree.specs.Pages.{nodes};

use crate::answer::Answer;
use crate::keys;
use crate::page_calls::add;
use code_units::Text;
use event_loop::{Delivered, Event, Loop, LoopFault};
use page_tree::{NodeId, Page};
use std::alloc::Global;

/// What a call gives on a loop and a page of its own.
pub fn answer_of_loop(alloc: Global, words: &str) -> Option<Answer> {
    let mut around = Loop::new(alloc, keys()).ok()?;
    let mut page = Page::new(alloc, keys()).ok()?;
    called(alloc, &mut around, &mut page, words)
}

fn called(alloc: Global, around: &mut Loop, page: &mut Page, words: &str) -> Option<Answer> {
    match words {
        "read the clock of a new loop" => clock(alloc, around),
        "set a mark" => mark_kept(alloc, around),
        "protect a node" => protect_kept(alloc, around),
        "start a timer while 64 wait" => full_timers(alloc, around),
        "deliver to a path that leads nowhere" => lost(alloc, around, page),
        "listen on the root and deliver to it" => heard(alloc, around, page),
        _ => None,
    }
}

fn clock(alloc: Global, around: &Loop) -> Option<Answer> {
    let clock = around.clock();
    Some(Answer::Text(format!(in alloc; "{clock}\n").ok()?))
}

fn mark_kept(alloc: Global, around: &mut Loop) -> Option<Answer> {
    let mark = Text::from_str(alloc, "m").ok()?;
    around.set_mark(alloc, 7, mark.share().ok()?).ok()?;
    let kept = around.mark(7) == Some(&mark);
    Some(Answer::Text(format!(in alloc; "the mark is kept: {kept}\n").ok()?))
}

fn protect_kept(alloc: Global, around: &mut Loop) -> Option<Answer> {
    around.protect(alloc, 7).ok()?;
    Some(Answer::Is(around.is_protected(7)))
}

// The refusal of the 65th timer.
fn full_timers(alloc: Global, around: &mut Loop) -> Option<Answer> {
    for _ in 0..64 {
        if refused_timer(around).is_some() {
            return None;
        }
    }
    match refused_timer(around)? {
        LoopFault::Full { waiting } => {
            Some(Answer::Text(format!(in alloc; "Full, {waiting} wait\n").ok()?))
        }
        LoopFault::Memory => None,
    }
}

// Why a timer is not started, if it is not.
fn refused_timer(around: &mut Loop) -> Option<LoopFault> {
    if around.clock() > 0 {
        return Some(LoopFault::Memory);
    }
    around.later(3, 10).err()
}

// A click on a path that leads nowhere.
fn lost(alloc: Global, around: &Loop, page: &mut Page) -> Option<Answer> {
    let root = add(alloc, page, "<p>a</p>")?;
    deliver(alloc, around, page, root, vec![in alloc; 9].ok()?)
}

// A click on the root, which listens.
fn heard(alloc: Global, around: &mut Loop, page: &mut Page) -> Option<Answer> {
    let root = add(alloc, page, "<p>a</p>")?;
    around
        .listen(alloc, root, Text::from_str(alloc, "click").ok()?, 5)
        .ok()?;
    deliver(alloc, around, page, root, Vec::new(alloc))
}

fn deliver(
    alloc: Global,
    around: &Loop,
    page: &Page,
    root: NodeId,
    path: Vec<u32>,
) -> Option<Answer>
    requires { root < length (nodes page.now) }
{
    let event = Event {
        kind: Text::from_str(alloc, "click").ok()?,
        path,
        value: None,
    };
    match around.deliver(alloc, page, root, false, &event).ok()? {
        Delivered::Gone => Some(Answer::Word("Gone")),
        Delivered::Miss => Some(Answer::Word("Miss")),
        Delivered::Silent => Some(Answer::Word("Silent")),
        Delivered::Turn { handlers, .. } => Some(Answer::At("Turn of", handlers.len())),
    }
}
