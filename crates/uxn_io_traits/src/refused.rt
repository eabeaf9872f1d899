//! The files that a tree refused to create.
ghost use Rattle.std.specs.Prelude.{◌≡◌, Some, None};
ghost use Rattle.uxn_io_traits.specs.Ended.{refused_also};

use super::Path;

/// The files that a tree refused to create: how many, up to 2^64 - 1, and the one that it refused last.
#[derive(Clone, Copy)]
pub struct RefusedFiles {
    /// How many.
    pub count: u64,
    /// The last one.
    pub last: Option<Path>,
}

impl RefusedFiles {
    /// None so far.
    pub fn new() -> RefusedFiles
        ensures { result ≡ record { count = 0; last = None } }
    {
        RefusedFiles {
            count: 0,
            last: None,
        }
    }

    /// One more.
    pub fn add(&mut self, path: &Path)
        ensures { self.new ≡ refused_also (Some path.now) self.old }
    {
        self.count = self.count.saturating_add(1);
        self.last = Some(*path);
    }
}
