//! Files in memory.
ghost use Rattle.std.specs.Prelude.{◌≡◌, ◌+◌, ◌≤◌, Some, None, Option, MatchOption, IsSome, IfOk, IfErr, IsErrOf, IsTrue, ◌↔◌, ◌⊎◌, take, length};
ghost use Rattle.std.proofs.Common.{rules};
ghost use Rattle.host_io.specs.Files.{IsStart, Rose};
ghost use Rattle.host_io.specs.Memory.{count_after, fails_next, file_of, is_past};

use crate::calls::{count_call, one_more};
use crate::{Files, ReadFail};
use std::alloc::Global;

/// Files in memory. The first entry of a name counts. `fail` lists the calls, counted from 1, that
/// fail; past the last value of `calls` a call has no number.
#[derive(Drop)]
pub struct MemFiles {
    pub entries: Vec<(String, Vec<u8>)>,
    pub fail: Vec<u32>,
    pub calls: u32,
    pub faults: u64,
}

// The first entry of this name.
fn find<'a>(entries: &'a [(String, Vec<u8>)], name: &str) -> Option<&'a [u8]>
    ensures { MatchOption result (file_of entries.now name.now ≡ None)
        (λ bytes. file_of entries.now name.now ≡ Some bytes.now) }
{
    'entries: for entry in entries {
        if entry.0.as_str() == name {
            return Some(entry.1.as_slice());
        }
    }
    None
}

// The first bytes, or all.
fn start_of(alloc: Global, bytes: &[u8], max: usize) -> Result<Vec<u8>, ReadFail>
    ensures bytes { IfOk result (λ v. v.items ≡ take (max + 1) bytes.now) }
    ensures memory { IfErr result (λ e. e ≡ ReadFail.Memory) }
{
    let start = if max < bytes.len() {
        &bytes[..max + 1]
    } else {
        bytes
    };
    start.to_vec(alloc).map_err(|_| ReadFail::Memory)
}

impl Files for MemFiles {
    ghost told = { λ f. Some (file_of f.entries.items) };

    ghost calm = { λ f. IsTrue (is_past f.fail.items f.calls) };

    ghost faults = { λ f. f.faults };

    ghost calm_tells = { λ f calm. Prim.search rules };

    #[tactic(auto, using(crate::proofs::Listed::fails_past, crate::proofs::Listed::past_from))]
    fn read(&mut self, alloc: Global, name: &str, max: usize) -> Result<Vec<u8>, ReadFail>
        ensures bytes { IfOk result (λ v. IsStart (file_of self.old.entries.items name.now) (max + 1) v.items) }
        ensures bound { IfOk result (λ v. length v.items ≤ max + 1) }
        ensures failed { IsErrOf result ReadFail.Failed ↔
            (IsTrue (fails_next self.old.fail.items self.old.calls) ⊎ (file_of self.old.entries.items name.now
            ≡ None)) }
        ensures after { self.new ≡ record self.old { calls = count_after self.old.calls; faults = self.new.faults } }
        ensures count { self.old.faults ≤ self.new.faults }
        ensures cause { IsErrOf result ReadFail.Failed → Rose self.old.faults self.new.faults }
        ensures blameless { ¬ IsErrOf result ReadFail.Failed → self.new.faults ≡ self.old.faults }
        ensures calm { IsTrue (is_past self.old.fail.items self.old.calls)
            → IsTrue (is_past self.new.fail.items self.new.calls) }
        ensures calm_reads { IsTrue (is_past self.old.fail.items self.old.calls)
            → IsSome (file_of self.old.entries.items name.now) → ¬ IsErrOf result ReadFail.Failed }
    {
        if count_call(&mut self.calls, &self.fail) {
            self.faults = one_more(self.faults);
            return Err(ReadFail::Failed);
        }
        let Some(bytes) = find(&self.entries, name) else {
            self.faults = one_more(self.faults);
            return Err(ReadFail::Failed);
        };
        start_of(alloc, bytes, max)
    }
}
