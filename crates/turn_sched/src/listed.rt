//! A chooser that follows a list.
ghost use Rattle.std.specs.List.Sorted.{IsStrictlyIncreasing};
ghost use Rattle.std.specs.Prelude.{All, ◌≡◌, ◌<◌, ◌+◌, ◌%◌, [], length, Some, slice_index};
ghost use Rattle.turn_sched.specs.Turns.{round_place};

use crate::chooser::Chooser;
use code_units::WIDGETS;

/// Takes the next number of its list modulo the length of what it is asked about, and begins again
/// at the end. An empty list takes the first each time. It keeps no asks.
#[derive(Drop)]
pub struct Listed {
    pub list: Vec<u32>,
    pub at: usize,
}

impl Chooser for Listed {
    ghost asks = { λ _. [] };

    ghost room = { λ _. 0 };

    fn next(&mut self, ready: &[u32]) -> usize
        requires rising { IsStrictlyIncreasing ready.now }
        requires below { All (λ w. w < WIDGETS) ready.now }
        requires some { 0 < length ready.now }
        ensures within { result < length ready.now }
        ensures empty { length self.old.list.items ≡ 0 → result ≡ 0 }
        ensures number { 0 < length self.old.list.items
            → result ≡ slice_index self.old.list.items
            (round_place self.old.list.items self.old.at) % length ready.now }
        ensures after_empty { length self.old.list.items ≡ 0 → self.new ≡ record self.old { at = 0 } }
        ensures after { 0 < length self.old.list.items
            → self.new ≡ record self.old { at = round_place self.old.list.items self.old.at + 1 } }
    {
        if self.at >= self.list.len() {
            self.at = 0;
        }
        let Some(number) = self.list.get(self.at) else {
            return 0;
        };
        self.at += 1;
        *number as usize % ready.len()
    }
}
