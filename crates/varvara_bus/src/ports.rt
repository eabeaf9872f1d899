//! Which ports do more than hold a byte.
ghost use Rattle.std.specs.Prelude.{◌≡◌, ◌<◌, ◌≤◌};
ghost use Rattle.varvara_bus.specs.Voices.{voice_number, base_of};
ghost use Rattle.varvara_bus.specs.FileActs.{file_base};
ghost use Rattle.varvara_bus.specs.Effect.{action_of};

use uxn_limits::ports::{AUDIO_VECTOR, VOICE_PORTS};

/// One of the four voices.
#[derive(Clone, Copy)]
pub(crate) enum Voice {
    First,
    Second,
    Third,
    Fourth,
}

impl Voice {
    /// Its number, from 0 on.
    pub(crate) fn number(self) -> u8
        ensures number { result ≡ voice_number self }
        ensures below { result < 4 }
    {
        match self {
            Voice::First => 0,
            Voice::Second => 1,
            Voice::Third => 2,
            Voice::Fourth => 3,
        }
    }

    /// The first of its ports.
    pub(crate) fn base(self) -> u8
        ensures base { result ≡ base_of self }
        ensures most { result ≤ 0x60 }
    {
        AUDIO_VECTOR + VOICE_PORTS * self.number()
    }
}

/// What a write to a port does, once its byte is stored.
#[derive(Clone, Copy)]
pub(crate) enum Action {
    /// Nothing more.
    Stores,
    /// The record at the address in ports 02 and 03 is done.
    Expands,
    /// The pointer of the working ring is set.
    SetsWorkingPointer,
    /// The pointer of the return ring is set.
    SetsReturnPointer,
    /// A byte that is not 0 puts the debug text on the error output.
    PutsDebugText,
    /// The byte is put on the standard output.
    PutsOut,
    /// The byte is put on the error output.
    PutsErr,
    /// The screen is requested the width in ports 22 and 23.
    AsksWidth,
    /// The screen is requested the height in ports 24 and 25.
    AsksHeight,
    /// A pixel is coloured, or a part of the screen is filled.
    DrawsPixel,
    /// Tiles are drawn.
    DrawsSprite,
    /// A note is started on a voice.
    StartsNote(Voice),
    /// A file device acts.
    ActsOnFile(FileNumber, FileAct),
}

/// One of the two file devices.
#[derive(Clone, Copy)]
pub(crate) enum FileNumber {
    First,
    Second,
}

/// What a file device does.
#[derive(Clone, Copy)]
pub(crate) enum FileAct {
    Stat,
    Delete,
    Name,
    Read,
    Write,
}

impl FileNumber {
    /// The first of its ports.
    pub(crate) fn base(self) -> u8
        ensures base { result ≡ file_base self }
        ensures most { result ≤ 0xb0 }
    {
        match self {
            FileNumber::First => 0xa0,
            FileNumber::Second => 0xb0,
        }
    }
}

impl Action {
    #[inline(always)]
    pub(crate) fn of(port: u8) -> Action
        ensures { result ≡ action_of port }
    {
        match port {
            0x03 => Action::Expands,
            0x04 => Action::SetsWorkingPointer,
            0x05 => Action::SetsReturnPointer,
            0x0e => Action::PutsDebugText,
            0x18 => Action::PutsOut,
            0x19 => Action::PutsErr,
            0x23 => Action::AsksWidth,
            0x25 => Action::AsksHeight,
            0x2e => Action::DrawsPixel,
            0x2f => Action::DrawsSprite,
            0x3f => Action::StartsNote(Voice::First),
            0x4f => Action::StartsNote(Voice::Second),
            0x5f => Action::StartsNote(Voice::Third),
            0x6f => Action::StartsNote(Voice::Fourth),
            0xa5 => Action::ActsOnFile(FileNumber::First, FileAct::Stat),
            0xa6 => Action::ActsOnFile(FileNumber::First, FileAct::Delete),
            0xa9 => Action::ActsOnFile(FileNumber::First, FileAct::Name),
            0xad => Action::ActsOnFile(FileNumber::First, FileAct::Read),
            0xaf => Action::ActsOnFile(FileNumber::First, FileAct::Write),
            0xb5 => Action::ActsOnFile(FileNumber::Second, FileAct::Stat),
            0xb6 => Action::ActsOnFile(FileNumber::Second, FileAct::Delete),
            0xb9 => Action::ActsOnFile(FileNumber::Second, FileAct::Name),
            0xbd => Action::ActsOnFile(FileNumber::Second, FileAct::Read),
            0xbf => Action::ActsOnFile(FileNumber::Second, FileAct::Write),
            _ => Action::Stores,
        }
    }
}
