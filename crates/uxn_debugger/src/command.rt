//! Commands, and what can be wrong with a text of them.

ghost use Rattle.std.specs.Prelude.{◌≡◌};

use text_lines::{LineFault, TextStop};

/// A command of the debugger.
#[derive(Clone, Copy)]
pub enum DebugCommand {
    /// Sets a break address.
    Break(u16),
    /// Clears a break address.
    Delete(u16),
    /// Goes on to the next later moment at a break address, or to the end.
    Run,
    /// Goes so many moments on, or to the end.
    Step(u32),
    /// Goes so many moments back, where they are held, or stays.
    Back(u32),
    /// Prints the bytes below the pointers of the two stacks.
    Stacks,
    /// Prints so many bytes of memory from an address on.
    Mem(u16, u16),
    /// Prints what the 256 ports read, or what was stored in them where the run has gone on since.
    PortPage,
    /// Prints the place.
    Here,
}

/// What can be wrong with a line of commands.
#[derive(Clone, Copy, Debug)]
pub enum CommandKind {
    /// The first word is no command.
    Unknown,
    /// A value is not of its form and range.
    BadValue,
    /// No label has this name.
    NoSuchLabel,
    /// There are too few values.
    Missing,
    /// There are too many values.
    Extra,
    /// With this line there are more than `MOST_COMMANDS` commands.
    ManyCommands,
    /// The text has more than `TEXT_LIMIT` bytes.
    LongCommands,
}

impl CommandKind {
    ghost use Rattle.uxn_debugger.specs.CommandKinds.{command_kind_name};

    /// The name of the kind, as it is printed.
    pub fn name(self) -> &'static str
        ensures { result.now ≡ command_kind_name self }
    {
        match self {
            CommandKind::Unknown => "Unknown",
            CommandKind::BadValue => "BadValue",
            CommandKind::NoSuchLabel => "NoSuchLabel",
            CommandKind::Missing => "Missing",
            CommandKind::Extra => "Extra",
            CommandKind::ManyCommands => "ManyCommands",
            CommandKind::LongCommands => "LongCommands",
        }
    }
}

impl From<LineFault> for CommandKind {
    ghost use Rattle.text_lines.specs.Rows.{fault_named};
    ghost use Rattle.uxn_debugger.specs.declared.command.CommandKind.TheVariants.{Unknown, Missing, Extra};

    ghost from_gives = { λ fault kind. kind ≡ fault_named Unknown Missing Extra fault };

    fn from(fault: LineFault) -> CommandKind {
        match fault {
            LineFault::Unknown => CommandKind::Unknown,
            LineFault::Missing => CommandKind::Missing,
            LineFault::Extra => CommandKind::Extra,
        }
    }
}

/// Why commands are not read.
pub type CommandStop = TextStop<CommandKind>;
