//! The devices of one machine.
ghost use Rattle.file_ports.specs.Device.{Suits};

use crate::time::Time;
use audio_mixer::Mixer;
use file_ports::FileDevice;
use screen_layers::Screen;
use uxn_io_traits::Path;

/// What the devices hold.
#[derive(Drop)]
pub struct Devices {
    pub(crate) page: [u8; 256],
    pub(crate) screen: Screen,
    pub(crate) mixer: Mixer,
    pub(crate) first_file: FileDevice,
    pub(crate) second_file: FileDevice,
    pub(crate) time: Time,
    pub(crate) root: Option<Path>,
    ghost first_suits: { Suits root first_file },
    ghost second_suits: { Suits root second_file },
}
