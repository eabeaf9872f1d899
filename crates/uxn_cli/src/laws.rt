//! Laws that tie what stands below to one another.
ghost use Rattle.std.specs.Prelude.{◌≡◌, ℕ, List, Some, Ok, Err, Result};
ghost use Rattle.uxn_io_traits.specs.Files.{Nodes};
ghost use Rattle.uxn_cli.specs.Request.{request};
ghost use Rattle.uxn_cli.specs.Verdict.{Work};
ghost use Rattle.uxn_cli.specs.Call.{Call};
ghost use Rattle.uxn_cli.specs.Causes.{tree_verdict};
ghost use Rattle.uxn_cli.specs.Clauses.{EndsEarlyByFaults, IsCutShort};
ghost use Rattle.uxn_cli.specs.Truncated.{RaisesACount, LeavesPrefixes};
ghost use Rattle.uxn_io_traits.specs.Along.{AgreeAlong};
ghost use Rattle.uxn_io_traits.specs.Inquiry.{answer_in};
ghost use Rattle.uxn_arguments.specs.declared.task.Task.{Task};
ghost use Rattle.uxn_cli.specs.Accepted.{source_of, first_source};
ghost use Rattle.uxn_cli.specs.declared.task_files.refusal.Refusal.{Refusal};
ghost use Rattle.uxn_cli.specs.Verdict.{inquiry_of};
ghost use Rattle.uxn_cli.specs.Observation.{OnlyWatches, HaveSameItems, ShowsWhatPlayDoes};

/// 136 comes only where the tree's count of faults rose in the call, and 137 only where a sink's did: by the clause `early`.
#[tactic(auto, using(crate::proofs::StatusLemmas::tree_rose, crate::proofs::StatusLemmas::sink_rose))]
pub fn a_fault_raises_a_count()
    ensures { (c : Call) → EndsEarlyByFaults c → RaisesACount c.before.faults c.now.faults c.status }
{}

/// After an early end each output, and each file that is written, holds a prefix of what the outcome gives it.
#[tactic(auto, using(crate::proofs::Clauses::leaves_prefixes))]
pub fn an_early_end_leaves_prefixes()
    ensures { (c : Call) → IsCutShort c → LeavesPrefixes c }
{}

/// A run under the debugger has the status of the run without it, and its changes but for the log. The file of the
/// log is made first and gets its bytes last.
#[tactic(auto, using(crate::proofs::Clauses::log_around))]
pub fn the_debugger_only_watches()
    ensures { OnlyWatches }
{}

/// Where a `debug` is accepted, `play` with the same words but the commands, the log and the symbols results in
/// the same run. Over every tree of files both give the same status and the same bytes to both outputs, and the same
/// stands afterwards beneath the root and at every path but that of the log.
pub fn debug_shows_what_play_does()
    ensures { (nodes : Nodes) (words others : List (List ℕ)) (work : Work) (items : HaveSameItems words others)
        → tree_verdict nodes (request words) ≡ Ok work
        → ShowsWhatPlayDoes nodes words others items work }
{}

/// What a call finds before it changes anything depends on what it asks alone: over two trees that reply the same to each of its
/// questions it is the same refusal, or the same work.
pub fn a_verdict_depends_on_what_is_asked()
    ensures { (requested : Result Task Refusal) (nodes other : Nodes) → AgreeAlong nodes other (inquiry_of requested)
        → tree_verdict nodes requested ≡ tree_verdict other requested }
{}

/// A source that is refused depends on its own bytes, and on the files that are read before its fault: over every other tree that is
/// the same in these the call is refused so, whatever else is there.
#[tactic(auto, using(crate::proofs::Clauses::alone))]
pub fn a_refused_source_is_alone()
    ensures { (task : Task) (path : List ℕ) (nodes other : Nodes) (refusal : Refusal) → first_source task ≡ Some path
        → answer_in nodes (source_of path) ≡ Err refusal → AgreeAlong nodes other (source_of path)
        → tree_verdict other (Ok task) ≡ Err refusal }
{}
