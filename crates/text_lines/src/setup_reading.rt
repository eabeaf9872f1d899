//! Reading a setup.

ghost use Rattle.text_lines.specs.Reading.{ReadsText};
ghost use Rattle.text_lines.specs.Setups.{setup_of};

use super::Lines;
use super::setup::{Setup, SetupKind, SetupStop, Turns};
use super::setup_line::{SetupLine, setup_line_of};
use std::alloc::{AllocError, Global};
use std::marker::Model;
use uxn_io_traits::Path;
use uxn_limits::limits;

/// Reads a setup of at most `TEXT_LIMIT` bytes. Refused with the first faulty line, counted from 1, and the first fault there;
/// at line 1 where no line is faulty and fewer than two machines are given.
#[tactic(auto, unfolding(crate::specs::Setups::setup_of))]
pub fn read_setup(alloc: Global, text: &[u8]) -> Result<Setup, SetupStop>
    ensures { ReadsText result (setup_of text.now) }
{
    if text.len() > limits::TEXT_LIMIT {
        return Err(SetupStop::Refused {
            line: 1,
            kind: SetupKind::LongSetup,
        });
    }
    let mut gathered = Gathered::new(alloc);
    let mut lines = Lines::new(text);
    while let Some(line) = lines.next_line() {
        match gathered.validate(line) {
            Ok(Some(given)) => gathered.push(given)?,
            Ok(None) => {}
            Err(kind) => {
                let line = lines.number();
                return Err(SetupStop::Refused { line, kind });
            }
        }
    }
    gathered.into_setup()
}

// What the lines so far gave, and how many turns these are.
#[derive(Drop)]
struct Gathered {
    sources: Vec<Path>,
    script: Option<Path>,
    budget: Option<u32>,
    schedule: Vec<Turns>,
    turns: u32,
}

impl Model for Gathered {
    ghost use Rattle.std.specs.Prelude.{◌≡◌};
    ghost use Rattle.text_lines.specs.SetupLimits.{IsGatheredSetup};
    ghost use Rattle.text_lines.specs.Setups.{SetupView, of_parts, turns_in};

    ghost Value = { SetupView };

    ghost view = { λ g. of_parts g.sources.items g.script g.budget g.schedule.items };

    ghost invariant = { λ g. IsGatheredSetup (of_parts g.sources.items g.script g.budget g.schedule.items)
        × (g.turns ≡ turns_in g.schedule.items) };
}

impl Gathered {
    ghost use Rattle.std.specs.Prelude.{◌≡◌, [], None, IfOk, IfSome, OnOk};
    ghost use Rattle.text_lines.specs.Lines.{words_of};
    ghost use Rattle.text_lines.specs.SetupLimits.{IsWithin};
    ghost use Rattle.text_lines.specs.Setups.{setup_from, setup_gathering_fault};
    ghost use Rattle.text_lines.specs.SetupLines.{setup_line_of};
    ghost use Rattle.text_lines.specs.SetupGathered.{validated, grown, finished_setup};

    // What no lines give.
    fn new(alloc: Global) -> Gathered
        ensures { result ≡ setup_from [] }
    {
        Gathered {
            sources: Vec::new(alloc),
            script: None,
            budget: None,
            schedule: Vec::new(alloc),
            turns: 0,
        }
    }

    // What a line gives behind those so far, if it gives something, or what is wrong with it.
    fn validate(&self, line: &[u8]) -> Result<Option<SetupLine>, SetupKind>
        ensures line { result ≡ validated self.now (setup_line_of (words_of line.now)) }
        ensures limits { IfOk result (λ given. IfSome given IsWithin) }
        ensures faultless { IfOk result (λ given. IfSome given (λ fine. setup_gathering_fault self.now fine ≡ None)) }
    {
        let Some(given) = setup_line_of(line)? else {
            return Ok(None);
        };
        if let Some(kind) = self.fault_of(&given) {
            return Err(kind);
        }
        Ok(Some(given))
    }

    // What is wrong with what a line gives behind those so far.
    fn fault_of(&self, given: &SetupLine) -> Option<SetupKind>
        ensures { result ≡ setup_gathering_fault self.now given.now }
    {
        match given {
            SetupLine::Machine(_) => {
                if self.sources.len() >= limits::MOST_MACHINES {
                    return Some(SetupKind::ManyMachines);
                }
            }
            SetupLine::Script(_) => {
                if self.script.is_some() {
                    return Some(SetupKind::Twice);
                }
            }
            SetupLine::Budget(_) => {
                if self.budget.is_some() {
                    return Some(SetupKind::Twice);
                }
            }
            SetupLine::Turn(turns) => {
                if turns.machine as usize > self.sources.len() {
                    return Some(SetupKind::NoMachine);
                }
                if turns.count > limits::MOST_TURNS - self.turns {
                    return Some(SetupKind::ManyTurns);
                }
            }
        }
        None
    }

    // Takes what a line without a fault gives.
    fn push(&mut self, given: SetupLine) -> Result<(), AllocError>
        requires limits { IsWithin given }
        requires faultless { setup_gathering_fault self.old given ≡ None }
        ensures { OnOk result (self.new ≡ grown self.old given) }
    {
        match given {
            SetupLine::Machine(path) => self.sources.push(path)?,
            SetupLine::Script(path) => self.script = Some(path),
            SetupLine::Budget(budget) => self.budget = Some(budget),
            SetupLine::Turn(turns) => {
                self.schedule.push(turns)?;
                self.turns += turns.count;
            }
        }
        Ok(())
    }

    // The setup of all lines, unless there are too few machines.
    fn into_setup(self) -> Result<Setup, SetupStop>
        ensures { result ≡ finished_setup self }
    {
        let Gathered {
            sources,
            script,
            budget,
            schedule,
            ..
        } = self;
        if sources.len() < limits::FEWEST_MACHINES {
            return Err(SetupStop::Refused {
                line: 1,
                kind: SetupKind::FewMachines,
            });
        }
        Ok(Setup::new(sources, script, budget, schedule))
    }
}
