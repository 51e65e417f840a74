//! Lines in memory.
ghost use Rattle.std.specs.Prelude.{◌≡◌, ◌+◌, ◌≤◌, ⊤, Some, option_map, take, drop, length, IfOk, IfErr, IfSome, OnOk};
ghost use Rattle.std.specs.List.{slice_get};
ghost use Rattle.std.proofs.Common.{rules};
ghost use Rattle.host_io.specs.Lines.{lines_of};

use crate::Lines;
use crate::cuts::{line_len, start_of};
use crate::files::ReadFail;
use std::alloc::Global;

/// The lines of bytes in memory, from a place on. Reading them fails for want of memory alone.
#[derive(Drop)]
pub struct MemLines {
    pub bytes: Vec<u8>,
    pub at: usize,
}

impl Lines for MemLines {
    ghost left = { λ l. Some (lines_of (drop l.at l.bytes.items)) };

    ghost calm = { λ _. ⊤ };

    ghost faults = { λ _. 0 };

    ghost calm_tells = { λ l calm. Prim.search rules };

    fn next_line(&mut self, alloc: Global, max: usize) -> Result<Option<Vec<u8>>, ReadFail>
        ensures line { IfOk result (λ next. option_map (λ line. line.items) next
            ≡ option_map (take (max + 1)) (slice_get (lines_of (drop self.old.at self.old.bytes.items)) 0)) }
        ensures rest { OnOk result (lines_of (drop self.new.at self.new.bytes.items)
            ≡ drop 1 (lines_of (drop self.old.at self.old.bytes.items))) }
        ensures bound { IfOk result (λ next. IfSome next (λ line. length line.items ≤ max + 1)) }
        ensures memory { IfErr result (λ e. (e ≡ ReadFail.Memory) × (self.new ≡ self.old)) }
    {
        let rest = rest_of(&self.bytes, self.at);
        if rest.is_empty() {
            return Ok(None);
        }
        let len = line_len(rest);
        let Ok(line) = start_of(&rest[..len], max).to_vec(alloc) else {
            return Err(ReadFail::Memory);
        };
        self.at = past(&self.bytes, self.at + len);
        Ok(Some(line))
    }
}

// The bytes from a place on.
fn rest_of(bytes: &[u8], at: usize) -> &[u8]
    ensures { result.now ≡ drop at bytes.now }
{
    if at < bytes.len() { &bytes[at..] } else { &[] }
}

// The place behind one in some bytes.
fn past(bytes: &[u8], at: usize) -> usize
    requires { at ≤ length bytes.now }
    ensures { result ≡ at + 1 }
{
    at + 1
}
