//! The debugger: a watcher that does commands and keeps a log.

ghost use Rattle.std.specs.Prelude.{◌≡◌, ◌≤◌, ◌<◌, ◌-◌, ℕ, List, [], length, slice_get, if◌then◌else◌, IfSome, IfOk, OnOk};
ghost use Rattle.std.specs.List.{list_any};
ghost use Rattle.vector_loop.specs.Watch.{Page, IsPage};
ghost use Rattle.uxn_debugger.specs.Printing.{view};
ghost use Rattle.uxn_debugger.specs.Watching.{
  KeepsTheLog,
  KeepsTheLogOfRuns,
  KeptNone,
  arrived,
  back_after,
  done,
  followed,
  goal_later,
  goal_of,
  held_by,
  is_awaited,
  is_back,
  is_stop,
  new_undo,
  new_watching,
  next_stop,
  shown_of,
  was_at_break,
  with_arrival,
  with_kept,
};

use crate::breaks::Breaks;
use crate::command::DebugCommand;
use crate::place::{Goal, Place};
use crate::printing::{put_place, put_printed};
use crate::scene::Scene;
use std::alloc::{AllocError, Global};
use tal_symbols::{Label, LabelTable};
use uxn_opcodes::{Core, Ports};
use uxn_undo::{
    Undo, going_back_gives_the_moment, the_moments_of_a_run_are_in_a_row,
    the_newest_moments_are_held,
};
use vector_loop::{Moment, Watcher, the_moments_of_a_run_are_counted};

/// Watches a run: it does commands, one after the other, and keeps what they print. It changes nothing of the run.
#[derive(Drop)]
pub struct Debugger<'a> {
    commands: Vec<DebugCommand>,
    next: usize,
    labels: LabelTable<'a>,
    goal: Goal,
    breaks: Breaks,
    log: Vec<u8>,
    undo: Option<Undo>,
}

impl<'a> Debugger<'a> {
    /// A debugger that does these commands, with an empty log. It takes no memory. The labels are those that the log
    /// names, and `undo` keeps the moments that commands go back to, where some command is `back`.
    pub fn new(
        alloc: Global,
        commands: Vec<DebugCommand>,
        labels: &'a [Label],
        undo: Undo,
    ) -> Debugger<'a>
        requires { undo ≡ [] }
        ensures { held_by result ≡ new_watching commands.items labels.now }
    {
        let undo = if has_back(commands.as_slice()) {
            Some(undo)
        } else {
            None
        };
        Debugger::with_undo(alloc, commands, labels, undo)
    }

    /// The same, with what keeps moments where some command is `back`, and else with nothing.
    pub fn with_undo(
        alloc: Global,
        commands: Vec<DebugCommand>,
        labels: &'a [Label],
        undo: Option<Undo>,
    ) -> Debugger<'a>
        requires { undo ≡ new_undo commands.items }
        ensures { held_by result ≡ new_watching commands.items labels.now }
    {
        Debugger {
            commands,
            next: 0,
            labels: LabelTable::new(alloc, labels),
            goal: Goal::FirstMoment,
            breaks: Breaks::new(),
            log: Vec::new(alloc),
            undo,
        }
    }

    /// What the commands done so far have printed.
    pub fn log(&self) -> &[u8]
        ensures { result.now ≡ (held_by self.now).log }
    {
        self.log.as_slice()
    }

    // Whether the wait ends at a moment at this address. If not, one moment fewer is waited for.
    #[inline(always)]
    fn ends_wait(&mut self, address: u16) -> bool
        ensures awaited { result ≡ is_awaited (held_by self.old).goal (held_by self.old).breaks address }
        ensures later { held_by self.new ≡ (if result then held_by self.old
            else record (held_by self.old) { goal = goal_later self.old.goal }) }
        ensures kept { KeptNone (held_by self.old) (held_by self.new) }
    {
        match self.goal {
            Goal::BreakAddress => self.breaks.contains(address),
            Goal::MomentAfter(0) | Goal::FirstMoment => true,
            Goal::MomentAfter(left) => {
                self.goal = Goal::MomentAfter(left - 1);
                false
            }
            Goal::Nothing => false,
        }
    }

    // Does commands where the moment is the one that was waited for.
    #[inline(always)]
    fn follow<P: Ports>(&mut self, core: &Core, ports: &P, moment: Moment) -> Result<(), AllocError>
        ensures ok { OnOk result ((page : Page) → IsPage (P.rules.reads ports.now core.now) (P.stored ports.now) page
            → held_by self.new ≡ followed (held_by self.old) (shown_of core.now page moment)) }
        ensures kept { KeptNone (held_by self.old) (held_by self.new) }
    {
        if !self.ends_wait(moment.address) {
            return Ok(());
        }
        self.arrive(core, ports, Place::Before(moment))
    }

    // Keeps one more moment, where some command goes back.
    #[inline(always)]
    fn keep<P: Ports>(&mut self, core: &Core, ports: &P)
        ensures { (page : Page) (moment : Moment) → IsPage (P.rules.reads ports.now core.now) (P.stored ports.now) page
            → held_by self.new ≡ with_kept (shown_of core.now page moment) (held_by self.old) }
    {
        let Some(undo) = &mut self.undo else {
            return;
        };
        has_all_ports(ports.stored_page());
        undo.keep(core, ports);
    }

    // Prints the place, unless the run begins, and does the next commands.
    #[inline(never)]
    #[tactic(auto, unfolding(crate::specs::Watching::arrived))]
    fn arrive<P: Ports>(&mut self, core: &Core, ports: &P, place: Place) -> Result<(), AllocError>
        ensures ok { OnOk result ((page : Page) → IsPage (P.rules.reads ports.now core.now) (P.stored ports.now) page
            → held_by self.new ≡ arrived (view core.now page.read place) (held_by self.old)) }
        ensures kept { KeptNone (held_by self.old) (held_by self.new) }
    {
        self.labels.make()?;
        self.put_arrival(core, place)?;
        self.go_on(core, ports, place)
    }

    // Prints the place, unless the run begins.
    fn put_arrival(&mut self, core: &Core, place: Place) -> Result<(), AllocError>
        ensures ok { OnOk result ((page : List ℕ)
            → held_by self.new ≡ with_arrival (view core.now page place) (held_by self.old)) }
        ensures kept { KeptNone (held_by self.old) (held_by self.new) }
    {
        if let Goal::FirstMoment = self.goal {
            return Ok(());
        }
        let scene = Scene {
            core,
            place,
            undo: &self.undo,
            back: 0,
            labels: &self.labels,
        };
        put_place(&mut self.log, &scene)?;
        Ok(())
    }

    // Does commands until one goes on, or none is left.
    fn go_on<P: Ports>(&mut self, core: &Core, ports: &P, place: Place) -> Result<(), AllocError>
        ensures ok { OnOk result ((page : Page) → IsPage (P.rules.reads ports.now core.now) (P.stored ports.now) page
            → held_by self.new ≡ done (view core.now page.read place) 0 (held_by self.old).commands (held_by self.old)) }
        ensures kept { KeptNone (held_by self.old) (held_by self.new) }
    {
        let mut back = 0;
        while let Some(command) = self.commands.get(self.next) {
            let command = *command;
            self.next += 1;
            if let Some(goal) = self.goal_of(place, back, command) {
                self.goal = goal;
                return Ok(());
            }
            let reach = self.held() - back;
            back = self.back_after(place, back, command);
            self.breaks.follow(command);
            let scene = Scene {
                core,
                place,
                undo: &self.undo,
                back,
                labels: &self.labels,
            };
            put_printed(&mut self.log, &scene, ports, reach, command)?;
        }
        self.goal = Goal::Nothing;
        Ok(())
    }

    // How many moments are kept.
    fn held(&self) -> u32
        ensures { result ≡ length (held_by self.now).undo }
    {
        match &self.undo {
            Some(undo) => undo.held(),
            None => 0,
        }
    }

    // What a command waits for that goes on past the moment that is shown, if it does.
    fn goal_of(&self, place: Place, back: u32, command: DebugCommand) -> Option<Goal>
        requires { back ≤ length (held_by self.now).undo }
        ensures { result ≡ goal_of (held_by self.now) place back command }
    {
        match (place, command) {
            (Place::Before(_), DebugCommand::Run) => match self.next_stop(place, back) {
                Some(_) => None,
                None => Some(Goal::BreakAddress),
            },
            (Place::Before(_), DebugCommand::Step(count)) => match count.checked_sub(back) {
                None | Some(0) => None,
                Some(more) => Some(Goal::MomentAfter(more - 1)),
            },
            _ => None,
        }
    }

    // How far back a command leaves one, where it waits for nothing.
    fn back_after(&self, place: Place, back: u32, command: DebugCommand) -> u32
        requires { back ≤ length (held_by self.now).undo }
        ensures back { result ≡ back_after (held_by self.now) place back command }
        ensures held { result ≤ length (held_by self.now).undo }
    {
        match command {
            DebugCommand::Run => self.next_stop(place, back).unwrap_or(0),
            DebugCommand::Step(count) => back.saturating_sub(count),
            DebugCommand::Back(count) if count <= self.held() - back => back + count,
            _ => back,
        }
    }

    // How far back the next moment at a break address lies behind the one so far back, if the run was shown it.
    #[tactic(auto, unfolding(crate::specs::Watching::next_stop))]
    fn next_stop(&self, place: Place, back: u32) -> Option<u32>
        requires { back ≤ length (held_by self.now).undo }
        ensures stop { result ≡ next_stop (held_by self.now).breaks (held_by self.now).undo place back }
        ensures later { IfSome result (λ stop. stop ≤ back) }
    {
        let mut left = back;
        while let Some(less) = left.checked_sub(1) {
            left = less;
            if self.is_stop(place, less) {
                return Some(less);
            }
        }
        None
    }

    // Whether the moment so far back stood at a break address.
    fn was_at_break(&self, back: u32) -> bool
        requires first { 0 < back }
        requires last { back ≤ length (held_by self.now).undo }
        ensures { result ≡ was_at_break (held_by self.now).breaks (slice_get (held_by self.now).undo (back - 1)) }
    {
        match &self.undo {
            Some(undo) => self.breaks.contains(undo.address(back)),
            None => false,
        }
    }

    // Whether the moment so far back stands at a break address; 0 is the one that is shown.
    fn is_stop(&self, place: Place, back: u32) -> bool
        requires { back ≤ length (held_by self.now).undo }
        ensures { result ≡ is_stop (held_by self.now).breaks (held_by self.now).undo place back }
    {
        if back > 0 {
            return self.was_at_break(back);
        }
        match place {
            Place::Before(moment) => self.breaks.contains(moment.address),
            Place::End(_) => false,
        }
    }
}

/// What keeps the moments that commands go back to, where some command is `back`. It takes all the memory that it will use.
pub fn open_undo(alloc: Global, commands: &[DebugCommand]) -> Result<Option<Undo>, AllocError>
    ensures { IfOk result (λ undo. undo ≡ new_undo commands.now) }
{
    if !has_back(commands) {
        return Ok(None);
    }
    let undo = Undo::new(alloc)?;
    Ok(Some(undo))
}

// Whether a command goes back to a moment that is kept.
fn is_back(command: &DebugCommand) -> bool
    ensures { result ≡ is_back command.now }
{
    matches!(command, DebugCommand::Back(_))
}

// Whether some command does.
fn has_back(commands: &[DebugCommand]) -> bool
    ensures { result ≡ list_any is_back commands.now }
{
    commands.iter().any(is_back)
}

// A page has a byte for each port.
fn has_all_ports(page: &[u8; 256])
    ensures { length page.now ≡ 256 }
{}

impl<'a> Watcher for Debugger<'a> {
    ghost use Rattle.uxn_debugger.specs.Watching.{
      Watching,
      held_by,
      after_moment,
      after_end,
      KeptNone,
    };

    ghost Held = { Watching };

    ghost held = { held_by };

    ghost shown = { after_moment };

    ghost ended = { after_end };

    ghost may_refuse = { KeptNone };

    #[inline(always)]
    fn before<P: Ports>(
        &mut self,
        core: &Core,
        ports: &P,
        moment: Moment,
    ) -> Result<(), AllocError> {
        self.follow(core, ports, moment)?;
        self.keep(core, ports);
        Ok(())
    }

    #[tactic(auto, unfolding(crate::specs::Watching::ended))]
    fn finish<P: Ports>(
        &mut self,
        core: &Core,
        ports: &P,
        moment: Moment,
    ) -> Result<(), AllocError> {
        match self.goal {
            Goal::Nothing => Ok(()),
            _ => self.arrive(core, ports, Place::End(moment)),
        }
    }
}

/// A debugger that is shown the moments of a run in order, and then its end, keeps the log of its commands over the run. So
/// it does over the run of a script.
pub fn the_log_is_that_of_the_run()
    ensures moments { KeepsTheLog }
    ensures runs { KeepsTheLogOfRuns }
{
    the_newest_moments_are_held();
    going_back_gives_the_moment();
    the_moments_of_a_run_are_in_a_row();
    the_moments_of_a_run_are_counted();
}
