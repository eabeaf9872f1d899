//! The machine where commands are done: the one that runs, or an earlier one of which a moment is kept.

ghost use Rattle.std.specs.Prelude.{◌≡◌, ◌<◌, ◌≤◌, ℕ, List, length, slice_index, MatchOption};
ghost use Rattle.vector_loop.specs.Watch.{Page, IsPage};
ghost use Rattle.uxn_debugger.specs.Scenes.{view_in};
ghost use Rattle.uxn_debugger.specs.Watching.{held_in};

use crate::place::Place;
use tal_symbols::LabelTable;
use uxn_opcodes::{Core, Ports};
use uxn_stacks::Ring;
use uxn_undo::Undo;
use vector_loop::Moment;

// The machine that runs and where it stands, the moments that are kept of it, how many of them lie between it and the one that is
// looked at, and the labels by which addresses are named.
#[derive(Clone, Copy, Drop)]
pub(crate) struct Scene<'s> {
    pub(crate) core: &'s Core,
    pub(crate) place: Place,
    pub(crate) undo: &'s Option<Undo>,
    pub(crate) back: u32,
    pub(crate) labels: &'s LabelTable<'s>,
}

impl<'s> Scene<'s> {
    // What keeps the moment that is looked at, where the run has gone on from it.
    fn kept(&self) -> Option<&'s Undo>
        requires { self.now.back ≤ length (held_in self.now.undo.now) }
        ensures { MatchOption result (self.now.back ≡ 0) (λ undo. (undo.now ≡ held_in self.now.undo.now) × (0 < self.now.back)) }
    {
        match self.undo {
            Some(undo) if self.back > 0 => Some(undo),
            _ => None,
        }
    }

    // The working stack.
    pub(crate) fn working(&self) -> Ring
        requires { self.now.back ≤ length (held_in self.now.undo.now) }
        ensures { (page : List ℕ) → result ≡ (view_in self.now page).working }
    {
        match self.kept() {
            Some(undo) => undo.working(self.back),
            None => self.core.working,
        }
    }

    // The return stack.
    pub(crate) fn returns(&self) -> Ring
        requires { self.now.back ≤ length (held_in self.now.undo.now) }
        ensures { (page : List ℕ) → result ≡ (view_in self.now page).returns }
    {
        match self.kept() {
            Some(undo) => undo.returns(self.back),
            None => self.core.returns,
        }
    }

    // The byte of bank 0 at an address.
    pub(crate) fn byte(&self, at: u16) -> u8
        requires { self.now.back ≤ length (held_in self.now.undo.now) }
        ensures { (page : List ℕ) → result ≡ (view_in self.now page).byte at }
    {
        match self.kept() {
            Some(undo) => undo.byte(self.core, self.back, at),
            None => self.core.memory.get(at),
        }
    }

    // Where the run was.
    pub(crate) fn place(&self) -> Place
        requires { self.now.back ≤ length (held_in self.now.undo.now) }
        ensures { (page : List ℕ) → result ≡ (view_in self.now page).place }
    {
        let Some(undo) = self.kept() else {
            return self.place;
        };
        let now = self.place.moment();
        Place::Before(Moment {
            instructions: now.instructions.saturating_sub(u64::from(self.back)),
            address: undo.address(self.back),
        })
    }

    // What a port reads, or what was stored in it where the run has gone on since.
    pub(crate) fn port<P: Ports>(&self, ports: &P, port: u8) -> u8
        requires { self.now.back ≤ length (held_in self.now.undo.now) }
        ensures { (page : Page) → IsPage (P.rules.reads ports.now self.now.core.now) (P.stored ports.now) page
            → result ≡ slice_index (view_in self.now page.read).page port }
    {
        match self.kept() {
            Some(undo) => undo.stored(self.back, port),
            None => ports.dei(self.core, port),
        }
    }
}
