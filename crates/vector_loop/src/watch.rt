//! Watching a run: something that is shown the machine before each instruction.
ghost use Rattle.std.specs.Prelude.{◌≡◌, OnOk, OnErr};
ghost use Rattle.vector_loop.specs.Watch.{Page, IsPage};

use std::alloc::AllocError;
use uxn_opcodes::{Core, Ports, Registers};

/// Where a run stands.
#[derive(Clone, Copy)]
pub struct Moment {
    /// How many instructions were run before.
    pub instructions: u64,
    /// The address of the next instruction.
    pub address: u16,
}

/// Is shown the machine and its ports before each instruction, and once at the end of the run.
pub trait Watcher {
    ghost use Rattle.std.specs.Prelude.{◌≡◌, OnOk, OnErr};
    ghost use Rattle.uxn_opcodes.specs.declared.Core.{Core};
    ghost use Rattle.uxn_opcodes.specs.Rule.{with_registers};
    ghost use Rattle.vector_loop.specs.declared.watch.Moment.{Moment};
    ghost use Rattle.vector_loop.specs.Watch.{Page, IsPage};

    /// What watchers of this kind hold.
    ghost Held: { Type 0 };

    /// What it holds.
    ghost held: { Self → Held };

    /// What it holds after it was shown a core, the 256 ports, and a moment.
    ghost shown: { Held → Core → Page → Moment → Held };

    /// What it holds after it was shown the end of the run.
    ghost ended: { Held → Core → Page → Moment → Held };

    /// What it may hold when out of memory to it, by what it held before.
    ghost may_refuse: { Held → Held → Type 0 };

    /// Is shown the machine before an instruction. Errors when out of memory.
    fn before<P: Ports>(&mut self, core: &Core, ports: &P, moment: Moment) -> Result<(), AllocError>
        ensures ok { OnOk result ((page : Page) → IsPage (P.rules.reads ports.now core.now) (P.stored ports.now) page
            → held self.new ≡ shown (held self.old) core.now page moment) }
        ensures err { OnErr result (may_refuse (held self.old) (held self.new)) };

    /// The same of a machine that goes on with other registers than it has stored: the machine is then shown with these.
    #[inline(always)]
    fn before_at<P: Ports>(
        &mut self,
        core: &mut Core,
        registers: Registers,
        ports: &P,
        moment: Moment,
    ) -> Result<(), AllocError>
        ensures ok { OnOk result ((page : Page) → IsPage (P.rules.reads ports.now (with_registers core.old registers)) (P.stored ports.now) page
            → held self.new ≡ shown (held self.old) (with_registers core.old registers) page moment) }
        ensures err { OnErr result (may_refuse (held self.old) (held self.new)) }
        ensures core { with_registers core.new registers ≡ with_registers core.old registers }
    {
        core.set_registers(registers);
        self.before(core, ports, moment)
    }

    /// Is shown the machine at the end of the run. Errors when out of memory.
    fn finish<P: Ports>(&mut self, core: &Core, ports: &P, moment: Moment) -> Result<(), AllocError>
        ensures ok { OnOk result ((page : Page) → IsPage (P.rules.reads ports.now core.now) (P.stored ports.now) page
            → held self.new ≡ ended (held self.old) core.now page moment) }
        ensures err { OnErr result (may_refuse (held self.old) (held self.new)) };
}

/// Watches nothing, holds nothing and takes no memory.
#[derive(Clone, Copy)]
pub struct NoWatch;

impl Watcher for NoWatch {
    ghost Held = { Unit {0} };

    ghost held = { λ _. tt };

    ghost shown = { λ _ _ _ _. tt };

    ghost ended = { λ _ _ _ _. tt };

    ghost may_refuse = { λ _ _. ⊥ };

    fn before<P: Ports>(
        &mut self,
        _core: &Core,
        _ports: &P,
        _moment: Moment,
    ) -> Result<(), AllocError> {
        Ok(())
    }

    #[inline(always)]
    fn before_at<P: Ports>(
        &mut self,
        _core: &mut Core,
        _registers: Registers,
        _ports: &P,
        _moment: Moment,
    ) -> Result<(), AllocError> {
        Ok(())
    }

    fn finish<P: Ports>(
        &mut self,
        _core: &Core,
        _ports: &P,
        _moment: Moment,
    ) -> Result<(), AllocError> {
        Ok(())
    }
}
