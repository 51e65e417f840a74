//! The lines of bytes, one by one.
ghost use Rattle.std.specs.Prelude.{◌≡◌, ◌==◌, ◌<◌, length};
ghost use Rattle.std.specs.List.{position};
ghost use Rattle.reach_cert.specs.declared.fault.CertFault.TheVariants as fault;
ghost use Rattle.reach_cert.specs.Shape.{lines_of};
ghost use Rattle.reach_cert.specs.Words.{IsSlice};
ghost use Rattle.reach_cert.specs.Machine.{behind_first, first_text};
ghost use Rattle.reach_cert.specs.Lines.{is_feed, line_end};

use crate::fault::CertFault;
use std::marker::Model;

/// The lines of bytes that are left, and the number of the first of them.
#[derive(Drop)]
pub struct Lines<'a> {
    rest: &'a [u8],
    number: u32,
}

impl<'a> Model for Lines<'a> {
    ghost use Rattle.std.specs.Prelude.{◌+◌, ◌<◌, ◌^◌, length};
    ghost use Rattle.reach_cert.specs.Shape.{lines_of};
    ghost use Rattle.reach_cert.specs.Machine.{Ahead};

    ghost Value = { Ahead };

    ghost view = { λ l. record { number = l.number; lines = lines_of l.rest.now } };

    ghost invariant = { λ l. l.number + length l.rest.now < 2 ^ 32 };
}

fn is_feed(byte: &u8) -> bool
    ensures { result ≡ is_feed byte.now }
{
    *byte == b'\n'
}

fn feed_in(bytes: &[u8]) -> Option<usize>
    ensures { result ≡ position is_feed bytes.now }
{
    bytes.iter().position(is_feed)
}

// Behind the first line feed, or the end.
fn line_end(bytes: &[u8]) -> usize
    ensures { result ≡ line_end bytes.now }
{
    match feed_in(bytes) {
        Some(at) => at + 1,
        None => bytes.len(),
    }
}

impl<'a> Lines<'a> {
    /// The lines of bytes, counted from 1.
    pub fn new(bytes: &'a [u8]) -> Lines<'a>
        requires { length bytes.now < 4294967295 }
        ensures { result ≡ record { number = 1; lines = lines_of bytes.now } }
    {
        Lines {
            rest: bytes,
            number: 1,
        }
    }

    /// The first line without its line feed, if there is one and it has one.
    pub fn text(&self) -> Option<&'a [u8]>
        ensures { IsSlice (first_text self.now.lines) result }
    {
        self.rest[..line_end(self.rest)].strip_suffix(b"\n")
    }

    /// Whether no line is left.
    pub fn is_empty(&self) -> bool
        ensures { result ≡ (length self.now.lines == 0) }
    {
        self.rest.is_empty()
    }

    /// Goes to the next line, if there is a first.
    pub fn advance(&mut self)
        ensures { self.new ≡ behind_first self.old }
    {
        if self.rest.is_empty() {
            return;
        }
        self.rest = &self.rest[line_end(self.rest)..];
        self.number += 1;
    }

    /// The number of the first line, or the number that it would have.
    pub fn number(&self) -> u32
        ensures { result ≡ self.now.number }
    {
        self.number
    }

    /// The refusal of the first line.
    pub fn fault(&self) -> CertFault
        ensures { result ≡ fault.BadCert self.now.number }
    {
        CertFault::BadCert { line: self.number }
    }
}
