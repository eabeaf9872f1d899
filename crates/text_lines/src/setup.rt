//! Setups, and what can be wrong with a text of one.

ghost use Rattle.std.specs.Prelude.{◌≡◌};

use super::{LineFault, TextStop};
use std::marker::Model;
use uxn_io_traits::Path;
use uxn_limits::limits;

/// So many turns of one machine, one after the other.
#[derive(Clone, Copy)]
pub struct Turns {
    /// The number of the machine, from 1.
    pub machine: u8,
    /// How many turns it gets.
    pub count: u32,
}

/// What joins 2 to 8 machines to a line: the sources of the machines, the script of the first one, the budget of every
/// vector, and who gets turns.
#[derive(Drop)]
pub struct Setup {
    sources: Vec<Path>,
    script: Option<Path>,
    budget: Option<u32>,
    schedule: Vec<Turns>,
}

impl Model for Setup {
    ghost use Rattle.text_lines.specs.SetupLimits.{IsSetup};
    ghost use Rattle.text_lines.specs.Setups.{SetupView, of_parts};

    ghost Value = { SetupView };

    ghost view = { λ s. of_parts s.sources.items s.script s.budget s.schedule.items };

    ghost invariant = { λ s. IsSetup (of_parts s.sources.items s.script s.budget s.schedule.items) };
}

impl Setup {
    ghost use Rattle.std.specs.Prelude.{◌≡◌, ◌≤◌, length};
    ghost use Rattle.std.specs.List.{All};
    ghost use Rattle.std.specs.Option.{unwrap_or};
    ghost use Rattle.uxn_limits.specs.declared.limits.TheConstants.{FEWEST_MACHINES, MOST_MACHINES, MOST_TURNS, USUAL_BUDGET};
    ghost use Rattle.text_lines.specs.SetupLimits.{IsSetup, AreTurns};
    ghost use Rattle.text_lines.specs.Setups.{of_parts, turns_in};

    // A setup of these parts.
    pub(crate) fn new(
        sources: Vec<Path>,
        script: Option<Path>,
        budget: Option<u32>,
        schedule: Vec<Turns>,
    ) -> Setup
        requires { IsSetup (of_parts sources.items script budget schedule.items) }
        ensures { result ≡ of_parts sources.items script budget schedule.items }
    {
        Setup {
            sources,
            script,
            budget,
            schedule,
        }
    }

    /// The paths of the sources, machine by machine.
    pub fn sources(&self) -> &[Path]
        ensures paths { result.now ≡ self.now.sources }
        ensures least { FEWEST_MACHINES ≤ length result.now }
        ensures most { length result.now ≤ MOST_MACHINES }
    {
        self.sources.as_slice()
    }

    /// The path of the first machine's script; without one there is no event.
    pub fn script(&self) -> Option<Path>
        ensures { result ≡ self.now.script }
    {
        self.script
    }

    /// The budget of every vector: that of the setup, or `USUAL_BUDGET` where it gives none.
    pub fn budget(&self) -> u32
        ensures budget { result ≡ unwrap_or self.now.budget USUAL_BUDGET }
        ensures some { 1 ≤ result }
    {
        self.budget.unwrap_or(limits::USUAL_BUDGET)
    }

    /// Who gets turns, in order: at most `MOST_TURNS`, each of a machine that is there.
    pub fn schedule(&self) -> &[Turns]
        ensures turns { result.now ≡ self.now.schedule }
        ensures each { All (AreTurns (length self.now.sources)) result.now }
        ensures few { turns_in result.now ≤ MOST_TURNS }
    {
        self.schedule.as_slice()
    }
}

/// What can be wrong with a line of a setup, in the order in which the faults of one line count.
#[derive(Clone, Copy, Debug)]
pub enum SetupKind {
    /// The first word is none of a setup.
    Unknown,
    /// There are too few values.
    Missing,
    /// There are too many values.
    Extra,
    /// A value is no path, or no number of its range.
    BadValue,
    /// A second `script`, or a second `budget`.
    Twice,
    /// A ninth machine.
    ManyMachines,
    /// A `turn` of a machine that no earlier line gives.
    NoMachine,
    /// With this line there are more than `MOST_TURNS` turns.
    ManyTurns,
    /// No line is faulty, and there are fewer than two machines.
    FewMachines,
    /// The setup has more than `TEXT_LIMIT` bytes.
    LongSetup,
}

impl SetupKind {
    ghost use Rattle.text_lines.specs.SetupKinds.{setup_kind_name};

    /// The name of the kind, as it is printed.
    pub fn name(self) -> &'static str
        ensures { result.now ≡ setup_kind_name self }
    {
        match self {
            SetupKind::Unknown => "Unknown",
            SetupKind::Missing => "Missing",
            SetupKind::Extra => "Extra",
            SetupKind::BadValue => "BadValue",
            SetupKind::Twice => "Twice",
            SetupKind::ManyMachines => "ManyMachines",
            SetupKind::NoMachine => "NoMachine",
            SetupKind::ManyTurns => "ManyTurns",
            SetupKind::FewMachines => "FewMachines",
            SetupKind::LongSetup => "LongSetup",
        }
    }
}

impl From<LineFault> for SetupKind {
    ghost use Rattle.text_lines.specs.Rows.{fault_named};
    ghost use Rattle.text_lines.specs.declared.setup.SetupKind.TheVariants.{Unknown, Missing, Extra};

    ghost from_gives = { λ fault kind. kind ≡ fault_named Unknown Missing Extra fault };

    fn from(fault: LineFault) -> SetupKind {
        match fault {
            LineFault::Unknown => SetupKind::Unknown,
            LineFault::Missing => SetupKind::Missing,
            LineFault::Extra => SetupKind::Extra,
        }
    }
}

/// Why a setup is not read.
pub type SetupStop = TextStop<SetupKind>;
