//! The real files and the standard output: the trusted edge. They tell no content.
ghost use Rattle.std.specs.Prelude.{None};

use crate::calls::one_more;
use crate::{Files, ReadFail, Sink, WriteFail};
use std::alloc::Global;
use std::io::{ErrorKind, Read};
use std::{fs, io, rt};

/// The files of the machine.
#[derive(Drop)]
pub struct RealFiles<'a, R> {
    pub rt: &'a R,
    pub faults: u64,
}

/// The standard output.
#[derive(Drop)]
pub struct RealSink<'a, R> {
    pub rt: &'a R,
    pub faults: u64,
}

// Reads to the end, or to one byte over the limit.
fn read_start<R: rt::Files>(rt: &R, bytes: &mut Vec<u8>, name: &str, max: usize) -> io::Result<()> {
    let file = fs::open(rt, name)?;
    let limit = (max as u64).saturating_add(1);
    file.take(limit).read_to_end(bytes)?;
    Ok(())
}

impl<'a, R: rt::Files> Files for RealFiles<'a, R> {
    ghost told = { λ _. None };

    ghost calm = { λ _. ⊥ };

    ghost faults = { λ f. f.faults };

    ghost calm_tells = { λ f calm. absurd calm };

    fn read(&mut self, alloc: Global, name: &str, max: usize) -> Result<Vec<u8>, ReadFail> {
        let mut bytes = Vec::new(alloc);
        if let Err(e) = read_start(self.rt, &mut bytes, name, max) {
            if e.kind() == ErrorKind::OutOfMemory {
                return Err(ReadFail::Memory);
            }
            self.faults = one_more(self.faults);
            return Err(ReadFail::Failed);
        }
        bytes.truncate(max.saturating_add(1));
        Ok(bytes)
    }
}

impl<'a, R: Print> Sink for RealSink<'a, R> {
    ghost held = { λ _. None };

    ghost takes = { λ _. 0 };

    ghost faults = { λ s. s.faults };

    fn write(&mut self, bytes: &[u8]) -> Result<usize, WriteFail> {
        let Ok(count) = self.rt.write_some(bytes) else {
            self.faults = one_more(self.faults);
            return Err(WriteFail::Failed);
        };
        if count == 0 && !bytes.is_empty() {
            self.faults = one_more(self.faults);
        }
        Ok(count)
    }
}
