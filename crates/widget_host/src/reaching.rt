//! The certificate of reach of a host.
ghost use Rattle.std.specs.Prelude.{◌≡◌, ◌<◌, List, [], IfOk, IsErr, Option, length, map, true};
ghost use Rattle.std.specs.List.{list_all, zip};
ghost use Rattle.life_laws.specs.Journal.{ready_from};
ghost use Rattle.reach_cert.specs.Certs.{cert_lines, plain};
ghost use Rattle.reach_cert.specs.Shape.{IsCert, is_name, slot_name};
ghost use Rattle.reach_cert.specs.Walks.{IsConfined};
ghost use Rattle.life_laws.specs.Settled.{slot_flags};
ghost use Rattle.slot_reach.specs.States.{cert_of_states};
ghost use Rattle.widget_host.specs.Housed.{AreShown, IsHoused, chains, marked, names, seens};
ghost use Rattle.widget_host.specs.Reached.{lasts, reached};
ghost use Rattle.widget_meaning.specs.OwnState.{OwnState};

use crate::host::Host;
use code_units::Memory;
use reach_cert::Cert;
use slot_reach::lasts_are_told;
use std::alloc::Global;

impl Host {
    /// What each widget can get at, as a certificate of reach: each slot by its last life, read off the one store and
    /// the one page. It is for a host that has settled: what a turn in progress holds is not in it. Each reference is
    /// told by the cell to which it leads, whoever that belongs to; that it leads to the widget's own, or to the
    /// permitted table, is proved. Where the slots have names of slots its text is read as it (`read_cert`). Where the
    /// host is marked it is answered with `Memory`.
    pub fn reach(&self, alloc: Global) -> Result<Cert, Memory>
        requires housed { IsHoused self.now }
        requires quiet { ready_from 0 (slot_flags (seens self.now) (chains self.now)) ≡ [] }
        ensures read { IfOk result (λ cert. plain cert ≡ reached self.now) }
        ensures states { IfOk result (λ cert. (ends : List (Option OwnState))
            → AreShown self.now (lasts (chains self.now)) ends
            → plain cert ≡ cert_of_states (zip (names self.now) ends)) }
        ensures confined { IfOk result (λ cert. IsConfined (plain cert)) }
        ensures names { IfOk result (λ cert. map slot_name (plain cert) ≡ names self.now) }
        ensures few { IfOk result (λ cert. length (cert_lines (plain cert)) < 4294967295) }
        ensures shape { IfOk result (λ cert. list_all is_name (names self.now) ≡ true → IsCert (plain cert)) }
        ensures marked { marked self.now ≡ true → IsErr result }
    {
        if self.marked {
            return Err(Memory);
        }
        lasts_are_told();
        slot_reach::reach(alloc, &self.lives, &self.slots)
    }
}
