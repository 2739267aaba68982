//! A sink that collects a text in memory.
ghost use Rattle.std.specs.Prelude.{◌≡◌, ◌+◌, ◌-◌, ◌^◌, ◌<◌, ◌≤◌, [], ◌++◌, length, take, IfOk, OnOk, OnErr, Some};

use cif_line::{Failed, Sink};
use std::alloc::Global;
use std::marker::Model;

/// A sink in memory. It grows with each write, and fails only if memory runs out.
#[derive(Debug, Drop)]
pub struct Page {
    bytes: Vec<u8>,
    failures: u64,
}

impl Model for Page {
    ghost use Rattle.docker_desk.specs.Answers.{PageView};

    ghost Value = { PageView };

    ghost view = { λ page. record {
      text = page.bytes.items;
      failures = page.failures;
    } };
}

impl Page {
    /// Returns an empty page. Allocates nothing.
    pub fn new(alloc: Global) -> Page
        ensures text { result.text ≡ [] }
        ensures no_failure { result.failures ≡ 0 }
    {
        Page {
            bytes: Vec::new(alloc),
            failures: 0,
        }
    }

    /// Returns the text that was written on the page.
    pub fn text(&self) -> &[u8]
        ensures { result.now ≡ self.now.text }
    {
        self.bytes.as_slice()
    }
}

impl Sink for Page {
    ghost taken = { λ page. Some page.text };

    ghost failures = { λ page. page.failures };

    fn write(&mut self, piece: &[u8]) -> Result<usize, Failed>
        requires failures { self.old.failures < 2 ^ 64 - 1 }
        requires piece { 0 < length piece.now }
        ensures within { IfOk result (λ n. n ≤ length piece.now) }
        ensures moved { IfOk result (λ n. self.new.text ≡ self.old.text ++ take n piece.now) }
        ensures progress { IfOk result (λ n. 0 < n) }
        ensures no_failure { OnOk result (self.new.failures ≡ self.old.failures) }
        ensures counted { OnErr result (self.new.failures ≡ self.old.failures + 1) }
        ensures unmoved { OnErr result (self.new.text ≡ self.old.text) }

        // The clauses above are promised for every sink. The clause below is promised only for this
        // sink.
        ensures whole { IfOk result (λ n. n ≡ length piece.now) }
    {
        match self.bytes.extend_from_slice(piece) {
            Ok(()) => Ok(piece.len()),
            Err(_) => {
                self.failures += 1;
                Err(Failed)
            }
        }
    }

    fn failures(&self) -> u64 {
        self.failures
    }
}
