//! A source that keeps a copy of what is read from it.
ghost use Rattle.std.specs.Prelude.{◌≡◌, IfSome, option_map};
ghost use Rattle.cif_device.specs.Device.{Held};
ghost use Rattle.docker_desk.specs.Copying.{KeepsMore};

use cif_line::{Failed, Source};
use std::alloc::Global;
use std::marker::{Brand, Model, PhantomData};

/// A ghost value for contracts: the bytes that a source held when the copying began. These bytes
/// are part of the copying source's type, so no call can change them.
pub(crate) trait Begun {
    ghost use Rattle.std.specs.Prelude.{List, Option, ℕ};

    ghost bytes: { Option (List ℕ) };
}

impl Begun for Brand {
    ghost use Rattle.std.specs.Prelude.{None};

    ghost bytes = { None };
}

/// A source, with a copy of all bytes that were read from it. The copy is `None` if there was no
/// memory for the copy. `at_end` says whether the last read reported the end of the source.
#[derive(Drop)]
pub(crate) struct Copying<B: Begun, S: Source> {
    source: S,
    copy: Option<Vec<u8>>,
    at_end: bool,
    of: PhantomData<B>,
}

impl<B: Begun, S: Source> Model for Copying<B, S> {
    ghost use Rattle.std.specs.Prelude.{IfSome, option_map};
    ghost use Rattle.std.specs.Prelude.{◌≡◌, true};
    ghost use Rattle.cif_device.specs.Device.{IsEnd, Reads};
    ghost use Rattle.docker_desk.specs.Copying.{CopyView};

    ghost Value = { CopyView };

    ghost view = { λ it. record {
      left = S.left it.source;
      failures = S.failures it.source;
      ended = S.ended it.source;
      passed = S.passed it.source;
      copy = option_map (λ copy. copy.items) it.copy;
    } };

    ghost invariant = { λ it. IfSome it.copy (λ copy.
        Reads B.bytes copy.items (S.left it.source))
        × (it.at_end ≡ true → IsEnd (S.left it.source)) };
}

impl<B: Begun, S: Source> Copying<B, S> {
    /// Wraps a source. Nothing is copied yet.
    pub(crate) fn new(alloc: Global, source: S) -> Copying<B, S>
        requires { S.left source ≡ B.bytes }
        ensures left { result.left ≡ S.left source }
        ensures failures { result.failures ≡ S.failures source }
    {
        Copying {
            source,
            copy: Some(Vec::new(alloc)),
            at_end: false,
            of: PhantomData,
        }
    }

    /// Returns the source and the copy. The copy is `None` if there was no memory for the copy, or
    /// if the source wasn't read to its end. Otherwise the copy has all bytes that the source held.
    pub(crate) fn into_parts(self) -> (S, Option<Vec<u8>>)
        ensures left { S.left result.0 ≡ self.left }
        ensures failures { S.failures result.0 ≡ self.failures }
        ensures copy { IfSome result.1 (λ copy. Held B.bytes copy.items) }
    {
        let Copying {
            source,
            copy,
            at_end,
            ..
        } = self;
        if at_end {
            (source, copy)
        } else {
            (source, None)
        }
    }
}

/// Adds bytes to a copy. Drops the copy if there is no memory for them.
fn keep(copy: &mut Option<Vec<u8>>, bytes: &[u8])
    ensures { KeepsMore (option_map (λ copy. copy.items) copy.old) bytes.now
        (option_map (λ copy. copy.items) copy.new) }
{
    let kept = match copy {
        Some(copy) => copy.extend_from_slice(bytes).is_ok(),
        None => true,
    };
    if !kept {
        *copy = None;
    }
}

impl<B: Begun, S: Source> Source for Copying<B, S> {
    ghost left = { λ it. it.left };

    ghost failures = { λ it. it.failures };

    ghost ended = { λ it. it.ended };

    ghost passed = { λ it. it.passed };

    fn read(&mut self, into: &mut [u8]) -> Result<usize, Failed> {
        let n = self.source.read(into)?;
        keep(&mut self.copy, &into[..n]);
        self.at_end = n == 0 && !into.is_empty();
        Ok(n)
    }

    fn failures(&self) -> u64 {
        self.source.failures()
    }
}
