//! A tree that tells the requests that it received.
ghost use Rattle.std.specs.Prelude.{◌≡◌, [], ◌∷◌};
ghost use Rattle.uxn_io_traits.specs.Requests.{Receives};
ghost use Rattle.uxn_cli_tests.specs.Telling.{requests_of};

use std::alloc::Global;
use uxn_io::{Entry, Failed, Kind, NamesStop, Path, Tree, TreeRequest};

/// A tree that tells the requests that it received, in order, as long as there is memory for them.
#[derive(Drop)]
pub struct Telling<T: Drop> {
    /// The tree.
    pub inner: T,
    /// The requests so far; none, once memory ran out.
    pub requests: Option<Vec<TreeRequest>>,
}

impl<T: Drop> Telling<T> {
    /// A tree that has received nothing so far.
    pub fn new(alloc: Global, inner: T) -> Telling<T>
        ensures { result.inner ≡ inner }
    {
        Telling {
            inner,
            requests: Some(Vec::new(alloc)),
        }
    }

    /// One request more.
    fn tell(&mut self, request: TreeRequest)
        ensures inner { self.new.inner ≡ self.old.inner }
        ensures requests { Receives (request ∷ []) (requests_of self.old.requests) (requests_of self.new.requests) }
    {
        if let Some(mut requests) = self.requests.take() {
            if requests.push(request).is_ok() {
                self.requests = Some(requests);
            }
        }
    }
}

impl<T: Tree + Drop> Tree for Telling<T> {
    ghost use Rattle.uxn_cli_tests.specs.Telling.{telling_tree};

    ghost state = { λ tree. telling_tree (T.state tree.inner) tree.requests };

    #[tactic(auto, using(crate::specs::Telling::looked_too))]
    fn kind(&mut self, path: &Path) -> Result<Kind, Failed> {
        self.tell(TreeRequest::LooksAt(*path));
        self.inner.kind(path)
    }

    #[tactic(auto, using(crate::specs::Telling::looked_too))]
    fn read(&mut self, path: &Path, from: u64, into: &mut [u8]) -> Result<usize, Failed> {
        if from == 0 {
            self.tell(TreeRequest::Reads(*path));
        }
        self.inner.read(path, from, into)
    }

    #[tactic(auto, using(crate::specs::Telling::ended_too))]
    fn create(&mut self, path: &Path) -> Result<bool, Failed> {
        self.tell(TreeRequest::Makes(*path));
        self.inner.create(path)
    }

    #[tactic(auto, using(crate::specs::Telling::ended_too))]
    fn append(&mut self, path: &Path, piece: &[u8]) -> Result<usize, Failed> {
        self.tell(TreeRequest::AppendsTo(*path));
        self.inner.append(path, piece)
    }

    #[tactic(auto, using(crate::specs::Telling::ended_too))]
    fn remove(&mut self, path: &Path) -> Result<bool, Failed> {
        self.tell(TreeRequest::TakesAway(*path));
        self.inner.remove(path)
    }

    #[tactic(auto, using(crate::specs::Telling::looked_too))]
    fn names(&mut self, alloc: Global, folder: &Path) -> Result<Vec<Entry>, NamesStop> {
        self.tell(TreeRequest::Lists(*folder));
        self.inner.names(alloc, folder)
    }
}
