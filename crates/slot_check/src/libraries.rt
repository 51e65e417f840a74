//! The libraries of a manifest.
ghost use Rattle.std.specs.Prelude.{◌≡◌, ◌<◌, ℕ, List, All, IfOk, IfErr, OnOk, length, position};
ghost use Rattle.std.specs.Str.{bytes_eq};
ghost use Rattle.slot_check.specs.Verdicts.{sources_of, IsSmall, IsLibraryVerdict, IsVerdictAt, IsLibraryJudged, IsJudgedAt, AreJudged, IsCleanAt, IsLibraryRefusal, Refuses};

use crate::fault::{SlotFault, broken_in};
use crate::sources::SourceFile;
use adsafe_rules::{Accepted, Scope};
use code_units::{Memory, Text};
use first_breach::Breach;
use script_check::{ScriptFault, judge_script};
use std::alloc::Global;
use trace_text::Rule;

/// What is known of a library.
#[derive(Clone, Copy, Drop)]
pub enum Known {
    /// Nothing yet.
    Unjudged,
    /// It breaks no rule.
    Clean,
    /// Its first broken rule, of A01 to A20, and the byte where.
    Broken(Breach),
}

/// The libraries of a manifest: the name of each as units, and what is known of it. One that was not
/// judged before is judged when a slot names it, and its tree is not kept; who wants the tree accepts it.
#[derive(Drop)]
pub struct Libraries {
    pub keys: Vec<Text>,
    pub known: Vec<Known>,
}

impl Libraries {
    /// The libraries, of which nothing is known yet.
    pub fn new(alloc: Global, libs: &[SourceFile]) -> Result<Libraries, Memory>
        ensures { IfOk result (AreJudged (sources_of libs.now)) }
    {
        let mut keys = Vec::new(alloc);
        let mut known = Vec::new(alloc);
        'libs: for lib in libs {
            keys.push(Text::from_str(alloc, lib.name.as_str())?)?;
            known.push(Known::Unjudged)?;
        }
        Ok(Libraries { keys, known })
    }

    /// The first library of this name.
    pub fn place(&self, name: &Text) -> Option<usize>
        ensures { result ≡ position (bytes_eq name.now) self.now.keys.items }
    {
        self.keys.iter().position(|key| *name == *key)
    }

    /// Judges the library at a place, if it was not judged before.
    ///
    /// # Errors
    /// `Broken` exactly where it breaks a rule, with the first of them.
    pub fn judge(
        &mut self,
        alloc: Global,
        libs: &[SourceFile],
        place: usize,
    ) -> Result<(), SlotFault>
        requires small { All IsSmall libs.now }
        requires judged { AreJudged (sources_of libs.now) self.old }
        requires inside { place < length libs.now }
        ensures clean { OnOk result (IsCleanAt (sources_of libs.now) place) }
        ensures broken { IfErr result (Refuses (IsLibraryRefusal (sources_of libs.now) place)) }
        ensures judged { AreJudged (sources_of libs.now) self.new }
    {
        match self.verdict(alloc, libs, place)? {
            Some(breach) => Err(broken_in(alloc, &libs[place], Rule::A(breach.rule), breach.at)),
            None => Ok(()),
        }
    }

    /// Judges the library at a place, whatever was known of it: its tree, or its first broken rule.
    pub fn accept(
        &mut self,
        alloc: Global,
        libs: &[SourceFile],
        place: usize,
    ) -> Result<Result<Accepted, Breach>, Memory>
        requires small { All IsSmall libs.now }
        requires judged { AreJudged (sources_of libs.now) self.old }
        requires inside { place < length libs.now }
        ensures accepted { IfOk result (IsJudgedAt (sources_of libs.now) place) }
        ensures judged { AreJudged (sources_of libs.now) self.new }
    {
        match judge_script(alloc, &Scope::Lib, &libs[place].bytes) {
            Ok(accepted) => {
                self.known[place] = Known::Clean;
                Ok(Ok(accepted))
            }
            Err(ScriptFault::Broken(breach)) => {
                self.known[place] = Known::Broken(breach);
                Ok(Err(breach))
            }
            Err(ScriptFault::Memory) => Err(Memory),
        }
    }

    // The first broken rule of the library at a place, if it breaks one.
    fn verdict(
        &mut self,
        alloc: Global,
        libs: &[SourceFile],
        place: usize,
    ) -> Result<Option<Breach>, Memory>
        requires small { All IsSmall libs.now }
        requires judged { AreJudged (sources_of libs.now) self.old }
        requires inside { place < length libs.now }
        ensures verdict { IfOk result (IsVerdictAt (sources_of libs.now) place) }
        ensures judged { AreJudged (sources_of libs.now) self.new }
    {
        let before = self.known[place];
        match before {
            Known::Clean => Ok(None),
            Known::Broken(breach) => Ok(Some(breach)),
            Known::Unjudged => {
                let judged = self.accept(alloc, libs, place)?;
                Ok(breach_of(judged))
            }
        }
    }
}

// The first broken rule of a library that was judged, if it breaks one.
fn breach_of(judged: Result<Accepted, Breach>) -> Option<Breach>
    ensures { (library : List ℕ) → IsLibraryJudged library judged → IsLibraryVerdict library result }
{
    match judged {
        Ok(accepted) => {
            drop(accepted);
            None
        }
        Err(breach) => Some(breach),
    }
}
