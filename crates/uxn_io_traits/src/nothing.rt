//! An outside that is not there: a sink that keeps nothing, and a tree in which nothing is.
ghost use Rattle.std.specs.Prelude.{◌≡◌, ◌<◌, ◌≤◌, Ok, None, [], ◌∷◌, length, take, drop, false};
ghost use Rattle.std.specs.Prelude.{is_err, is_some, IsTrue, IsSome, IsOk, IfOk, IfSome, OnOk, OnErr};
ghost use Rattle.std.specs.List.{All};
ghost use Rattle.std.specs.FinMap as map;
ghost use Rattle.uxn_io_traits.specs.Files.{IsTree, kind_at, file_at, file_bytes_from, is_folder, GivesBytes};
ghost use Rattle.uxn_io_traits.specs.Changes.{can_create};
ghost use Rattle.uxn_io_traits.specs.Children.{children, IsEntry, has_failed as names_failed};
ghost use Rattle.uxn_io_traits.specs.Ended.{SinkEnded, SinkFailed, TreeLooked, TreeEnded, Refused};
ghost use Rattle.uxn_io_traits.specs.Ended.{creating, removing, appending, portion, refused_file};
ghost use Rattle.uxn_io_traits.specs.Requests.{Receives, begins_reading};
ghost use Rattle.uxn_io_traits.specs.declared.requests.TreeRequest.TheVariants.{LooksAt, Lists, Makes, AppendsTo, TakesAway};
ghost use Rattle.uxn_io_traits.specs.declared.trees.Kind.TheVariants as kinds;
ghost use Rattle.uxn_io_traits.specs.Nothing.{state_of_no_sink, state_of_no_tree};

use super::{Entry, Failed, Kind, NamesStop, Path, Sink, Tree};
use std::alloc::Global;

/// A sink that takes every piece and keeps none.
#[derive(Clone, Copy)]
pub struct NoSink;

/// A tree in which nothing is ever there. It takes every piece and keeps none.
#[derive(Clone, Copy)]
pub struct NoTree;

/// It never fails.
impl Sink for NoSink {
    ghost state = { state_of_no_sink };

    /// Takes the whole piece.
    fn put(&mut self, piece: &[u8]) -> Result<usize, Failed>
        ensures count { IfOk result (λ n. n ≤ length piece.now) }
        ensures some { IfOk result (λ n. 0 < length piece.now → 0 < n) }
        ensures taken { IfOk result (λ n. SinkEnded (take n piece.now) false (state_of_no_sink self.old) (state_of_no_sink self.new)) }
        ensures failed { OnErr result (SinkFailed piece.now (state_of_no_sink self.old) (state_of_no_sink self.new)) }

        ensures answer { result ≡ Ok (length piece.now) }
    {
        Ok(piece.len())
    }
}

/// It never fails.
impl Tree for NoTree {
    ghost state = { state_of_no_tree };

    /// Nothing is there.
    fn kind(&mut self, _path: &Path) -> Result<Kind, Failed>
        ensures answer { IfOk result (λ kind. IfSome (state_of_no_tree self.old).contents (λ nodes. kind ≡ kind_at nodes _path.now)) }
        ensures shape { OnOk result (IfSome (state_of_no_tree self.old).contents IsTree) }
        ensures looked { TreeLooked (is_err result) (state_of_no_tree self.old) (state_of_no_tree self.new) }
        ensures requests { Receives (LooksAt _path.now ∷ []) (state_of_no_tree self.old).requests (state_of_no_tree self.new).requests }

        ensures exact { result ≡ Ok kinds.Missing }
    {
        Ok(Kind::Missing)
    }

    /// Reads nothing.
    fn read(&mut self, _path: &Path, _from: u64, into: &mut [u8]) -> Result<usize, Failed>
        ensures count { IfOk result (λ n. n ≤ length into.old) }
        ensures rest { IfOk result (λ n. drop n into.new ≡ drop n into.old) }
        ensures answer { IfOk result (λ n. IfSome (state_of_no_tree self.old).contents
            (λ nodes. GivesBytes (file_bytes_from nodes _path.now _from) into.old into.new n)) }
        ensures looked { TreeLooked (is_err result) (state_of_no_tree self.old) (state_of_no_tree self.new) }
        ensures requests { Receives (begins_reading _path.now _from) (state_of_no_tree self.old).requests (state_of_no_tree self.new).requests }

        ensures exact { result ≡ Ok 0 }
        ensures into { into.new ≡ into.old }
    {
        Ok(0)
    }

    /// Makes nothing.
    fn create(&mut self, _path: &Path) -> Result<bool, Failed>
        ensures answer { IfOk result (λ made. IfSome (state_of_no_tree self.old).contents (λ nodes. made ≡ can_create nodes _path.now)) }
        ensures ended { TreeEnded (creating (state_of_no_tree self.old).contents _path.now) (is_err result)
            (state_of_no_tree self.old) (state_of_no_tree self.new) }
        ensures refused { Refused (refused_file _path.now result) (state_of_no_tree self.old) (state_of_no_tree self.new) }
        ensures requests { Receives (Makes _path.now ∷ []) (state_of_no_tree self.old).requests (state_of_no_tree self.new).requests }

        ensures exact { result ≡ Ok false }
    {
        Ok(false)
    }

    /// Takes the whole piece.
    fn append(&mut self, _path: &Path, piece: &[u8]) -> Result<usize, Failed>
        requires { IfSome (state_of_no_tree self.old).contents (λ nodes. IsSome (file_at nodes _path.now)) }
        ensures count { IfOk result (λ n. n ≤ length piece.now) }
        ensures some { IfOk result (λ n. 0 < length piece.now → 0 < n) }
        ensures ended { TreeEnded (appending _path.now (portion result piece.now)) (is_err result) (state_of_no_tree self.old)
            (state_of_no_tree self.new) }
        ensures refused { Refused None (state_of_no_tree self.old) (state_of_no_tree self.new) }
        ensures requests { Receives (AppendsTo _path.now ∷ []) (state_of_no_tree self.old).requests (state_of_no_tree self.new).requests }

        ensures exact { result ≡ Ok (length piece.now) }
    {
        Ok(piece.len())
    }

    /// Takes nothing away.
    fn remove(&mut self, _path: &Path) -> Result<bool, Failed>
        ensures answer { IfOk result (λ gone. IfSome (state_of_no_tree self.old).contents (λ nodes. gone ≡ is_some (file_at nodes _path.now))) }
        ensures ended { TreeEnded (removing (state_of_no_tree self.old).contents _path.now) (is_err result)
            (state_of_no_tree self.old) (state_of_no_tree self.new) }
        ensures refused { Refused None (state_of_no_tree self.old) (state_of_no_tree self.new) }
        ensures requests { Receives (TakesAway _path.now ∷ []) (state_of_no_tree self.old).requests (state_of_no_tree self.new).requests }

        ensures exact { result ≡ Ok false }
    {
        Ok(false)
    }

    /// Lists nothing.
    fn names(&mut self, alloc: Global, _folder: &Path) -> Result<Vec<Entry>, NamesStop>
        requires { IfSome (state_of_no_tree self.old).contents (λ nodes. IsTrue (is_folder (map.get nodes _folder.now))) }
        ensures answer { IfOk result (λ entries. IfSome (state_of_no_tree self.old).contents (λ nodes. entries.items ≡ children nodes _folder.now)) }
        ensures looked { TreeLooked (names_failed result) (state_of_no_tree self.old) (state_of_no_tree self.new) }
        ensures entries { IfOk result (λ entries. All IsEntry entries.items) }
        ensures requests { Receives (Lists _folder.now ∷ []) (state_of_no_tree self.old).requests (state_of_no_tree self.new).requests }

        ensures given { IsOk result }
        ensures empty { IfOk result (λ entries. entries.items ≡ []) }
    {
        Ok(Vec::new(alloc))
    }
}
