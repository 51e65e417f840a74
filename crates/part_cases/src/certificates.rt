//! Whether the bytes of outside cases are certificates of reach, and confined.
ghost use Rattle.std.specs.Prelude.{◌<◌, length};
ghost use Rattle.reach_cert.specs.Certs.{cert_lines, plain};

use crate::answer::{Answer, push_answer};
use crate::cases::{bytes_of, text_at};
use reach_cert::{Cert, CertFault, confined, read_cert};
use serde_json::Value;
use std::alloc::Global;
use std::fmt::Write;

// The most bytes of a case.
const MOST_BYTES: usize = 65_536;

/// The name of each case, and what is found of its bytes.
pub fn verdicts(alloc: Global, cases: &str) -> Option<String> {
    let mut verdicts = String::new(alloc);
    for line in cases.lines() {
        push_verdict(alloc, &Value::from_str(alloc, line).ok()?, &mut verdicts)?;
    }
    Some(verdicts)
}

fn push_verdict(alloc: Global, case: &Value, out: &mut String) -> Option<()> {
    let name = text_at(case, "name")?;
    write!(out, "{name}: ").ok()?;
    push_answer(&verdict_of(alloc, &bytes_of(alloc, case)?), out)
}

fn verdict_of(alloc: Global, bytes: &[u8]) -> Option<Answer> {
    if bytes.len() > MOST_BYTES {
        return None;
    }
    match read_cert(alloc, bytes) {
        Ok(cert) => Some(verdict_on(&cert)),
        Err(CertFault::BadCert { line }) => {
            Some(Answer::At("no certificate at line", line as usize))
        }
        Err(CertFault::Memory) => None,
    }
}

fn verdict_on(cert: &Cert) -> Answer
    requires { length (cert_lines (plain cert.now)) < 4294967295 }
{
    match confined(cert) {
        Ok(()) => Answer::Word("confined"),
        Err(line) => Answer::At("not confined at line", line as usize),
    }
}
