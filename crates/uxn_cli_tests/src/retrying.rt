//! A tree and a sink over which calls that fail are tried again, so that they do not count exactly.

use std::alloc::Global;
use uxn_io::{Entry, Failed, Kind, NamesStop, Path, Sink, Tree};

/// A tree or a sink to which calls are handed on. A `kind` or a `put` that failed is tried once more; the fault stays
/// counted.
#[derive(Drop)]
pub struct Retrying<T> {
    /// The tree or the sink.
    pub inner: T,
}

impl<S: Sink + Drop> Sink for Retrying<S> {
    ghost use Rattle.uxn_cli_tests.specs.Retrying.{retried_sink};

    ghost state = { λ sink. retried_sink (S.state sink.inner) };

    #[tactic(auto, using(crate::specs::RetryingLaws::taken_once, crate::specs::RetryingLaws::taken_again, crate::specs::RetryingLaws::failed_again))]
    fn put(&mut self, piece: &[u8]) -> Result<usize, Failed> {
        match self.inner.put(piece) {
            Ok(taken) => Ok(taken),
            Err(Failed) => self.inner.put(piece),
        }
    }
}

impl<T: Tree + Drop> Tree for Retrying<T> {
    ghost use Rattle.uxn_cli_tests.specs.Retrying.{retried_tree};

    ghost state = { λ tree. retried_tree (T.state tree.inner) };

    #[tactic(auto, using(crate::specs::RetryingLaws::looked_once, crate::specs::RetryingLaws::looked_again))]
    fn kind(&mut self, path: &Path) -> Result<Kind, Failed> {
        match self.inner.kind(path) {
            Ok(kind) => Ok(kind),
            Err(Failed) => self.inner.kind(path),
        }
    }

    #[tactic(auto, using(crate::specs::RetryingLaws::looked_once))]
    fn read(&mut self, path: &Path, from: u64, into: &mut [u8]) -> Result<usize, Failed> {
        self.inner.read(path, from, into)
    }

    #[tactic(auto, using(crate::specs::RetryingLaws::ended_once, crate::specs::RetryingLaws::refused_once))]
    fn create(&mut self, path: &Path) -> Result<bool, Failed> {
        self.inner.create(path)
    }

    #[tactic(auto, using(crate::specs::RetryingLaws::ended_once, crate::specs::RetryingLaws::refused_once))]
    fn append(&mut self, path: &Path, piece: &[u8]) -> Result<usize, Failed> {
        self.inner.append(path, piece)
    }

    #[tactic(auto, using(crate::specs::RetryingLaws::ended_once, crate::specs::RetryingLaws::refused_once))]
    fn remove(&mut self, path: &Path) -> Result<bool, Failed> {
        self.inner.remove(path)
    }

    #[tactic(auto, using(crate::specs::RetryingLaws::looked_once))]
    fn names(&mut self, alloc: Global, folder: &Path) -> Result<Vec<Entry>, NamesStop> {
        self.inner.names(alloc, folder)
    }
}
