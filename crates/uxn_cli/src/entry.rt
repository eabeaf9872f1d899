//! The top call, from the words to the status.
ghost use Rattle.std.specs.Prelude.{◌≡◌, map, string_bytes};
ghost use Rattle.uxn_cli.specs.Request.{request};
ghost use Rattle.uxn_cli.specs.Blame.{as_step};
ghost use Rattle.uxn_cli.specs.Statuses.{early_status};
ghost use Rattle.uxn_cli.specs.Call.{call, call_on};
ghost use Rattle.uxn_cli.specs.Clauses.{HasItsOutcome, LeavesTheRest, HasStatuses, EndsEarlyByFaults, IsCutShort};
ghost use Rattle.uxn_cli.specs.Clauses.{GivesTheSame, FailsNotWhereGuaranteed, ComesOut};
ghost use Rattle.uxn_cli.specs.Outside.{DoesWork, SameHost, state_of_host};
ghost use Rattle.uxn_cli.specs.Refused.{ReportsRefused};

use super::host::Host;
use super::work::carry_out;
use crate::task_files::{Halt, request};
use std::alloc::Global;
use uxn_io_traits::{Sink, Tree};
use uxn_opcodes::Stop;

/// Does what the words ask for. Where it is refused its line is not put yet.
fn perform<T: Tree, O: Sink, E: Sink>(
    alloc: Global,
    words: &[String],
    host: &mut Host<'_, '_, '_, T, O, E>,
) -> Result<u8, Halt>
    ensures does { DoesWork (request (map string_bytes words.now))
        (state_of_host T.Tree O.Sink E.Sink host.old) (state_of_host T.Tree O.Sink E.Sink host.new) result }
    ensures same { SameHost host.old host.new }
{
    let task = request(alloc, words)?;
    carry_out(alloc, &task, host)
}

/// Does what the words ask for, or puts the line that says why not.
fn answer<T: Tree, O: Sink, E: Sink>(
    alloc: Global,
    words: &[String],
    host: &mut Host<'_, '_, '_, T, O, E>,
) -> Result<u8, Stop>
    ensures does { DoesWork (request (map string_bytes words.now))
        (state_of_host T.Tree O.Sink E.Sink host.old) (state_of_host T.Tree O.Sink E.Sink host.new) (as_step result) }
    ensures same { SameHost host.old host.new }
{
    match perform(alloc, words, host) {
        Ok(status) => Ok(status),
        Err(Halt::Refused(refusal)) => refusal.put(alloc, host.err),
        Err(Halt::Stopped(stop)) => Err(stop),
    }
}

/// The status of a call that ended early.
fn early_status(stop: Stop) -> u8
    ensures { result ≡ early_status stop }
{
    match stop {
        Stop::TreeFault => 136,
        Stop::SinkFault => 137,
        Stop::NoMemory => 138,
    }
}

/// Does what the words ask for, and gives the status.
#[tactic(auto, using(crate::proofs::Clauses::comes_out))]
fn status_of<T: Tree, O: Sink, E: Sink>(
    alloc: Global,
    words: &[String],
    host: &mut Host<'_, '_, '_, T, O, E>,
) -> u8
    ensures refusals { ReportsRefused (request (map string_bytes words.now)) (T.state host.old.tree.now) (T.state host.new.tree.now)
        (E.state host.old.err.now) (E.state host.new.err.now) result }
    ensures comes { ComesOut (call_on T.Tree O.Sink E.Sink words.now host.old host.new result) }
    ensures same { SameHost host.old host.new }
{
    match answer(alloc, words, host) {
        Ok(status) => status,
        Err(stop) => early_status(stop),
    }
}

/// Does all that the program does: reads what the `words` after its name ask for, does it on the tree
/// and the two sinks, and gives the exit status.
///
/// - `play SRC` assembles the source in the file SRC, or with `--rom` takes it as a ROM, and runs it over the
///   script of `--script`, each vector for at most `--budget` instructions. Bytes to the ports 18 and 19 go to
///   `out` and `err`; pictures, samples and the report go to the files of `--frames`, `--samples` and `--report`.
///   Its file devices see and change what lies at and beneath `--root`, and nothing else.
/// - `debug SRC --commands C --log P` does the same, follows the commands on the way, and writes the log.
/// - `asm SRC --out P` writes a ROM, and a symbol file and a listing where they are requested.
/// - `dis ROM` prints a disassembly.
/// - `gen N` makes a source of N routines, runs it over 60 frames with a tree and sinks of its own, and prints a summary.
/// - `line SETUP` runs the machines of a setup in a line: what each writes to port 18 is given to the next one, and the bytes of
///   the last one go to `out`. Bytes to port 19 and debug texts are dropped.
///
/// The status of a run is its exit code, 0 to 127. That of a line is the exit code of its last machine. Else it is 0. A refusal
/// puts its one line on `err` and nothing else:
///
/// - 128 for words that are not legal, 129 for a word that is no path, 130 for an input that is no file;
/// - 131 for a source with a fault, 132 for a script and 133 for commands with a faulty line;
/// - 134 for a ROM that is too long (1,048,320 bytes for `play` and `debug`, 65,280 for `dis`) or a faulty symbol file;
/// - 135 for an output that clashes or cannot be made;
/// - 139 for a setup with a faulty line, or the script of one that has other events than input and its end.
///
/// The call ends early with 136 where the tree failed, with 137 where a sink failed, and with 138 when out of memory. Memory runs
/// out in a `play` only before anything was done, or as its program lists a folder.
pub fn uxn<T: Tree, O: Sink, E: Sink>(
    alloc: Global,
    words: &[String],
    tree: &mut T,
    out: &mut O,
    err: &mut E,
) -> u8
    // Unless the call ends early, the status, the bytes added to both sinks and the files are the outcome of what
    // the words ask for and of what stands in the tree; after an early end a prefix of that was done. Beneath a root in
    // a tree of unknown contents a run ends with some exit code.
    ensures outcome { HasItsOutcome (call T.Tree O.Sink E.Sink words.now tree.old out.old err.old tree.new out.new err.new result) }

    // What stands as before: every path that is no output and lies outside the root; after a refusal all but its one line.
    ensures rest { LeavesTheRest (call T.Tree O.Sink E.Sink words.now tree.old out.old err.old tree.new out.new err.new result) }

    // When the call ends with the status of each refusal, of which two depend on the words alone, and with each exit code.
    ensures statuses { HasStatuses (call T.Tree O.Sink E.Sink words.now tree.old out.old err.old tree.new out.new err.new result) }

    // When it ends early: a fault is answered only where a count rose in this call (`a_fault_raises_a_count`). Memory runs
    // out before anything is done, but where a debugger watches the run or it takes the names of a folder.
    ensures early { EndsEarlyByFaults (call T.Tree O.Sink E.Sink words.now tree.old out.old err.old tree.new out.new err.new result) }

    // What stands after an early end: a prefix of the changes of the outcome, so each output, and each file that is written,
    // has a prefix of what the outcome gives it (`an_early_end_leaves_prefixes`).
    ensures cut_off { IsCutShort (call T.Tree O.Sink E.Sink words.now tree.old out.old err.old tree.new out.new err.new result) }

    // What other calls give the same: `play` with the items of a `debug`, but for the log; and the same words over every
    // other tree that replies the same to what is asked of it and, where a program runs, is the same beneath its root.
    ensures same { GivesTheSame (call T.Tree O.Sink E.Sink words.now tree.old out.old err.old tree.new out.new err.new result) }

    // Where the tree and the sinks are guaranteed to take what the verdict asks of them, none of them fails.
    ensures guaranteed { FailsNotWhereGuaranteed (call T.Tree O.Sink E.Sink words.now tree.old out.old err.old tree.new out.new err.new result) }

    // No call of `create` that the tree refused is ignored: a tree that is exact counts none, but for the one for which the call
    // is refused, whose path is the one in its line; where a program has a root, its own are not spoken of.
    ensures refusals { ReportsRefused (request (map string_bytes words.now))
        (T.state tree.old) (T.state tree.new) (E.state err.old) (E.state err.new) result }
{
    let mut host = Host { tree, out, err };
    status_of(alloc, words, &mut host)
}
