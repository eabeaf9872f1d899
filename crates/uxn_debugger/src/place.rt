//! Where a run stands, and where it is to be watched next.

ghost use Rattle.std.specs.Prelude.{◌≡◌};
ghost use Rattle.uxn_debugger.specs.Printing.{moment_at};

use vector_loop::Moment;

// Where a run stands.
#[derive(Clone, Copy)]
pub(crate) enum Place {
    // Before an instruction.
    Before(Moment),
    // At its end.
    End(Moment),
}

impl Place {
    // How many instructions were run before, and the address.
    pub(crate) fn moment(self) -> Moment
        ensures { result ≡ moment_at self }
    {
        match self {
            Place::Before(moment) | Place::End(moment) => moment,
        }
    }
}

// What the debugger waits for.
#[derive(Clone, Copy)]
pub(crate) enum Goal {
    // The first moment of the run.
    FirstMoment,
    // The next moment after so many more.
    MomentAfter(u32),
    // The next moment at a break address.
    BreakAddress,
    // Nothing: no command is left.
    Nothing,
}
