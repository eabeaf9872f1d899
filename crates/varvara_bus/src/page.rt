//! What the ports of the devices hold.
ghost use Rattle.std.specs.Prelude.{◌≡◌, ℕ, Bool, ◌+◌, ◌*◌, ◌<◌, ◌==◌, if◌then◌else◌, IfOk, [], ◌∷◌, slice_index, slice_set, pos, neg_ℤ, ◌≤ℤ◌};
ghost use Rattle.uxn_limits.specs.declared.limits.TheConstants.{MOST_EVENTS, LAST_SECOND, LAST_OFFSET};
ghost use Rattle.uxn_limits.specs.declared.ports.TheConstants.{CONSOLE_READ, CONSOLE_TYPE};
ghost use Rattle.console_port.specs.Console.{given};
ghost use Rattle.input_ports.specs.Page.{with_stores, stores_of, stores_after};
ghost use Rattle.input_ports.specs.Page.{short_stores};
ghost use Rattle.varvara_bus.specs.History.{at_first, made_ready, stored, stored_short};
ghost use Rattle.uxn_io_traits.specs.Files.{Nodes};
ghost use Rattle.varvara_bus.specs.State.{DeviceState, DevicesRepresent, device_clock, new_state, next_frame, storing};

use crate::devices::Devices;
use crate::time::{Clock, Time};
use audio_mixer::Mixer;
use console_port::{EventKind, give};
use file_ports::FileDevice;
use input_ports::{Input, apply, settle};
use screen_layers::Screen;
use std::alloc::{AllocError, Global};
use uxn_io_traits::Path;
use uxn_limits::ports::CONSOLE_TYPE;

impl Devices {
    /// New devices: all ports hold 0 but 22 to 25, which hold the size of the screen; nothing is drawn or heard, no file is
    /// named, and no frame has begun. It takes the memory of the screen; no other call takes any.
    pub fn new(alloc: Global, root: Option<Path>, clock: Clock) -> Result<Devices, AllocError>
        requires seconds_from { pos 0 ≤ℤ clock.seconds }
        requires seconds_to { clock.seconds ≤ℤ pos LAST_SECOND }
        requires offset_from { neg_ℤ (pos LAST_OFFSET) ≤ℤ clock.offset }
        requires offset_to { clock.offset ≤ℤ pos LAST_OFFSET }
        ensures { IfOk result (λ devices. (part : Nodes) → (parent : Bool) → DevicesRepresent devices (new_state clock root part parent)) }
    {
        let screen = Screen::new(alloc)?;
        Ok(Devices {
            page: new_page(),
            screen,
            mixer: Mixer::new(),
            first_file: FileDevice::new(alloc),
            second_file: FileDevice::new(alloc),
            time: Time::new(clock),
            root,
        })
    }

    /// The byte last stored in a port.
    #[inline(always)]
    pub fn stored(&self, port: u8) -> u8
        ensures held { result ≡ slice_index self.now.page port }
        ensures stored { (state : DeviceState) → DevicesRepresent self.now state → result ≡ stored state.history port }
    {
        self.page[usize::from(port)]
    }

    /// Stores a byte in a port, without acting.
    #[inline(always)]
    pub fn store(&mut self, port: u8, value: u8)
        ensures devices { self.new ≡ record self.old { page = slice_set self.old.page port value } }
        ensures stands { (state : DeviceState) → DevicesRepresent self.old state → DevicesRepresent self.new (storing ((port, value) ∷ []) state) }
        ensures held { (other : ℕ) → slice_index self.new.page other ≡ (if other == port then value else slice_index self.old.page other) }
        ensures frames { self.new.time.frames ≡ self.old.time.frames }
        ensures clock { device_clock self.new ≡ device_clock self.old }
        ensures root { self.new.root ≡ self.old.root }
    {
        self.page[usize::from(port)] = value;
    }

    /// Stores an event of the console: its byte in port 12, and the byte of its kind in port 17.
    pub fn give(&mut self, value: u8, kind: u8)
        ensures devices { self.new ≡ record self.old { page = given self.old.page value kind } }
        ensures stands { (state : DeviceState) → DevicesRepresent self.old state
            → DevicesRepresent self.new (storing ((CONSOLE_READ, value) ∷ (CONSOLE_TYPE, kind) ∷ []) state) }
    {
        give(&mut self.page, value, kind);
    }

    /// Tells the program by port 17 whether arguments will come.
    pub fn make_ready(&mut self, arguments: usize)
        ensures devices { self.new ≡ record self.old { page = with_stores self.old.page (made_ready arguments) } }
        ensures stands { (state : DeviceState) → DevicesRepresent self.old state → DevicesRepresent self.new (storing (made_ready arguments) state) }
    {
        if arguments > 0 {
            self.store(CONSOLE_TYPE, EventKind::Input.byte());
        }
    }

    /// Stores an input at its ports.
    pub(crate) fn apply(&mut self, input: &Input)
        ensures devices { self.new ≡ record self.old {
          page = with_stores self.old.page (stores_of (slice_index self.old.page) input.now);
        } }
        ensures stands { (state : DeviceState) → DevicesRepresent self.old state
            → DevicesRepresent self.new (storing (stores_of (stored state.history) input.now) state) }
    {
        apply(&mut self.page, input);
    }

    /// Stores 0 at the ports of an input that are 0 again after its vector.
    pub(crate) fn settle(&mut self, input: &Input)
        ensures devices { self.new ≡ record self.old { page = with_stores self.old.page (stores_after input.now) } }
        ensures stands { (state : DeviceState) → DevicesRepresent self.old state
            → DevicesRepresent self.new (storing (stores_after input.now) state) }
    {
        settle(&mut self.page, input);
    }

    /// Counts a frame that begins.
    pub(crate) fn begin_frame(&mut self)
        requires { self.old.time.frames < MOST_EVENTS }
        ensures stands { (state : DeviceState) → DevicesRepresent self.old state → DevicesRepresent self.new (next_frame state) }
        ensures frames { self.new.time.frames ≡ self.old.time.frames + 1 }
        ensures clock { device_clock self.new ≡ device_clock self.old }
        ensures root { self.new.root ≡ self.old.root }
    {
        self.time.begin_frame();
    }

    /// The short in a port and the next one.
    #[inline(always)]
    pub fn stored_short(&self, port: u8) -> u16
        requires { port < 255 }
        ensures { (state : DeviceState) → DevicesRepresent self.now state → result ≡ stored_short state.history port }
    {
        let high = self.page[usize::from(port)];
        let low = self.page[usize::from(port) + 1];
        u16::from(high) * 256 + u16::from(low)
    }

    /// Stores a short in a port and the next one, its high byte first.
    pub(crate) fn store_short(&mut self, port: u8, value: u16)
        requires { port < 255 }
        ensures stands { (state : DeviceState) → DevicesRepresent self.old state
            → DevicesRepresent self.new (storing (short_stores port value) state) }
        ensures frames { self.new.time.frames ≡ self.old.time.frames }
        ensures clock { device_clock self.new ≡ device_clock self.old }
        ensures root { self.new.root ≡ self.old.root }
    {
        self.store(port, (value / 256) as u8);
        self.store(port + 1, (value % 256) as u8);
    }
}

/// What ports hold at first.
fn new_page() -> [u8; 256]
    ensures { (port : ℕ) → slice_index result port ≡ at_first port }
{
    let mut page = [0; 256];
    page[0x25] = 0x40;
    page[0x24] = 0x01;
    page[0x22] = 0x02;
    page
}
