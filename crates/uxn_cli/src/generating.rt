//! What `gen` does: a workload is made, run and summed up.
ghost use Rattle.std.specs.Prelude.{◌≡◌, ◌≤◌, [], Ok, codes, length, IfOk};
ghost use Rattle.uxn_limits.specs.declared.limits.TheConstants.{USUAL_BUDGET};
ghost use Rattle.tal_rom.specs.Rom.{rom_limit};
ghost use Rattle.uxn_arguments.specs.Values.{then_steps};
ghost use Rattle.uxn_cli.specs.Accepted.{validated_script};
ghost use Rattle.uxn_line.specs.Streams.{run_of};
ghost use Rattle.uxn_cli.specs.Workload.{HasRunAlone, workload_text};
ghost use Rattle.tal_rom.specs.Assembly.{rom_of};
ghost use Rattle.tal_include.specs.Sources.{own_answer};
ghost use Rattle.uxn_io_traits.specs.Inquires.{Says};
ghost use Rattle.uxn_io_traits.specs.Inquiry.{result_as};
ghost use Rattle.uxn_cli.specs.declared.task_files.refusal.Refusal.TheVariants.{Faulty};
ghost use Rattle.uxn_cli.specs.Verdict.{accepted_summary};

use super::growing::GrowingSink;
use super::host::Host;
use super::machine::new_machine;
use super::making::workload_source;
use super::running::{RunEnd, Settings, run_machine};
use super::summary::Ran;
use crate::task_files::{Refusal, validate_script};
use std::alloc::{AllocError, Global};
use tal_include::SourceFault;
use tal_rom::assemble;
use tal_words::AsmStop;
use text_lines::Script;
use uxn_io_traits::{Halt, NoTree};
use uxn_limits::limits;
use vector_loop::{NoWatch, Outputs};

/// The script of a workload.
const SCRIPT: &[u8] = b"frame 60";

/// Runs a ROM on a machine of its own, without files and with an error output of its own. A fault of an output is
/// running out of memory.
fn run_rom(
    alloc: Global,
    rom: &[u8],
    script: Script,
    out: &mut GrowingSink,
) -> Result<RunEnd, AllocError>
    requires rom { length rom.now ≤ rom_limit }
    requires empty { out.old.taken ≡ [] }
    ensures { IfOk result (λ end. HasRunAlone (run_of USUAL_BUDGET rom.now script) end out.new.taken) }
{
    let mut machine = new_machine(alloc, None, rom, script)?;
    let settings = Settings {
        outputs: Outputs {
            frames: None,
            samples: None,
        },
        budget: limits::USUAL_BUDGET,
    };
    let mut tree = NoTree;
    let mut err = GrowingSink::new(alloc);
    let mut host = Host {
        tree: &mut tree,
        out,
        err: &mut err,
    };
    run_machine(&mut machine, &settings, &mut host, &mut NoWatch).or(Err(AllocError))
}

/// Runs a workload, and sums it up.
fn run_workload(
    alloc: Global,
    source: &[u8],
    rom: &[u8],
    script: Script,
) -> Result<Vec<u8>, AllocError>
    requires { length rom.now ≤ rom_limit }
    ensures { IfOk result (λ text. text.items ≡ workload_text source.now rom.now script) }
{
    let mut out = GrowingSink::new(alloc);
    let end = run_rom(alloc, rom, script, &mut out)?;
    let ran = Ran {
        source: source.len() as u64,
        rom: rom.len() as u64,
        instructions: end.tally.instructions,
        vectors: end.tally.vectors,
        cuts: end.tally.cuts,
        frames: end.tally.frames,
        console: out.bytes(),
        exit: end.exit,
    };
    ran.summary(alloc)
}

/// The ROM of a workload.
fn assembled_rom(alloc: Global, source: &[u8]) -> Result<Vec<u8>, Halt<Refusal>>
    ensures says { Says (λ _. record { text = source.now; paths = [] }) (result_as Faulty (own_answer source.now)) result }
    ensures rom { IfOk result (λ rom. rom.items ≡ rom_of source.now) }
    ensures room { IfOk result (λ rom. length rom.items ≤ rom_limit) }
{
    match assemble(alloc, source) {
        Ok(assembly) => Ok(assembly.into_parts().0),
        Err(AsmStop::Refused(fault)) => {
            let own = SourceFault::own(alloc, source, &fault)?;
            Err(Halt::Refused(Refusal::Faulty(own)))
        }
        Err(AsmStop::NoMemory) => Err(Halt::NoMemory),
    }
}

/// The summary of a workload that is assembled.
fn summary_of(alloc: Global, source: &[u8], rom: &[u8]) -> Result<Vec<u8>, Halt<Refusal>>
    requires { length rom.now ≤ rom_limit }
    ensures { Says (λ text. text.items) (then_steps (validated_script (codes "frame 60")) (λ script.
        Ok (workload_text source.now rom.now script))) result }
{
    let script = validate_script(alloc, SCRIPT)?;
    run_workload(alloc, source, rom, script).map_err(Halt::from)
}

/// The summary of a workload.
#[inline(never)]
pub fn summarize(alloc: Global, count: u16) -> Result<Vec<u8>, Halt<Refusal>>
    ensures { Says (λ text. text.items) (accepted_summary count) result }
{
    let text = workload_source(alloc, count)?;
    let rom = assembled_rom(alloc, &text)?;
    summary_of(alloc, &text, &rom)
}
