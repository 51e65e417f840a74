//! Bytes are written whole. It takes no memory.
ghost use Rattle.std.specs.Prelude.{◌≡◌, ℕ, ◌≤◌, length, take, OnOk, OnErr, IsOk};
ghost use Rattle.host_io.specs.Files.{Rose};
ghost use Rattle.host_io.specs.Sink.{with_bytes};

use crate::{Sink, WriteFail};

/// Appends all the bytes, or a first part of them.
pub fn write_whole<S: Sink>(sink: &mut S, bytes: &[u8]) -> Result<(), WriteFail>
    ensures whole { OnOk result (S.held sink.new ≡ with_bytes (S.held sink.old) bytes.now) }
    ensures part { OnErr result
        ((n : ℕ) × (n ≤ length bytes.now) × (S.held sink.new ≡ with_bytes (S.held sink.old) (take n bytes.now))) }
    ensures count { S.faults sink.old ≤ S.faults sink.new }
    ensures cause { OnErr result (Rose (S.faults sink.old) (S.faults sink.new)) }
    ensures room { length bytes.now ≤ S.takes sink.old → IsOk result }
    ensures room_count { length bytes.now ≤ S.takes sink.old → S.faults sink.new ≡ S.faults sink.old }
{
    let mut at = 0;
    'pieces: while at < bytes.len() {
        match sink.write(&bytes[at..]) {
            Ok(0) => return Err(WriteFail::Failed),
            Ok(count) => at += count,
            Err(fail) => return Err(fail),
        }
    }
    Ok(())
}
