//! Choosers over short lists.
use crate::answer::Answer;
use std::alloc::Global;
use turn_sched::{Chooser, Listed, RoundRobin};

/// The places that a chooser answers, one after the other.
pub fn answer_of_chooser(alloc: Global, name: &str) -> Option<Answer> {
    let (first, second, third) = match name {
        "round robin" => round_robin(alloc)?,
        "listed" => listed(alloc)?,
        _ => return None,
    };
    Some(Answer::Text(format!(in alloc; "{first} {second} {third}\n").ok()?))
}

fn round_robin(alloc: Global) -> Option<(usize, usize, usize)> {
    let mut chooser = RoundRobin::new(alloc, 2).ok()?;
    let first = chooser.next(&[1, 4]);
    let second = chooser.next(&[1, 4]);
    Some((first, second, chooser.next(&[1])))
}

fn listed(alloc: Global) -> Option<(usize, usize, usize)> {
    let list = vec![in alloc; 0, 5].ok()?;
    let mut chooser = Listed { list, at: 0 };
    let first = chooser.next(&[0, 1]);
    let second = chooser.next(&[0, 1]);
    Some((first, second, chooser.next(&[2])))
}
