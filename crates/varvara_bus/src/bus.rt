//! The bus: what the machine's ports are.
ghost use Rattle.std.specs.Prelude.{◌≡◌, ℕ, slice_index, ◌+◌, ◌<◌, ◌≤◌, true, false, [], ◌∷◌, map, length, Err, IsOk, OnOk, OnErr, IfErr, is_err};
ghost use Rattle.uxn_limits.specs.declared.limits.TheConstants.{MOST_EVENTS};
ghost use Rattle.uxn_limits.specs.declared.ports.TheConstants.{CONSOLE_READ, CONSOLE_TYPE};
ghost use Rattle.varvara_bus.specs.State.{DeviceState, DevicesRepresent, storing, next_frame, rendered, screen_refreshed};
ghost use Rattle.screen_frame.specs.Colours.{colours_of};
ghost use Rattle.screen_layers.specs.Layers as layers;
ghost use Rattle.screen_layers.specs.Pictures.{marked_rows};
ghost use Rattle.audio_mixer.specs.Sounds.{frame_of, endings};
ghost use Rattle.audio_mixer.specs.Voices.{all_play_on};
ghost use Rattle.input_ports.specs.Page.{stores_of, stores_after};
ghost use Rattle.varvara_bus.specs.History.{made_ready, stored, stored_short, colour_bytes};
ghost use Rattle.uxn_io_traits.specs.Faults.{Ledger};
ghost use Rattle.uxn_opcodes.specs.Ports.{result_blame};
ghost use Rattle.uxn_io_traits.specs.Ended.{SinkEnded, Ended};
ghost use Rattle.uxn_io_traits.specs.Outside.{ToFile};
ghost use Rattle.varvara_bus.specs.Effect.{debug_bytes};
ghost use Rattle.varvara_bus.specs.FileActs.{piece_appended};
ghost use Rattle.varvara_bus.specs.Bus.{
  BusRepresents,
  SameBus,
  ChangesDevices,
  Becomes,
  IsFileWhereKnown,
  held,
  held_page,
  frames_begun,
  screen_of,
  bus_faults,
  meaning_of,
  outside_on,
  blame_for,
  ActEnds,
  contents_on,
};

use crate::devices::Devices;
use crate::files::act_on_file;
use crate::ports::Action;
use crate::reading::read;
use crate::screen::{ask_height, ask_width, draw_pixel, draw_sprite, palette, refresh};
use crate::voices::{is_endless, pass_frame, render, start_note};
use console_port::console_write;
use input_ports::Input;
use screen_frame::Palette;
use screen_layers::Screen;
use system_port::{debug_text, expansion};
use uxn_io_traits::{Failed, Path, Sink, Tree, append_all, put_all};
use uxn_memory::Memory;
use uxn_opcodes::{Core, Ports, Stop};

/// The devices of a machine over a tree of files and two outputs.
#[derive(Drop)]
pub struct Bus<'a, T: Tree, O: Sink, E: Sink> {
    pub(crate) devices: &'a mut Devices,
    pub(crate) tree: &'a mut T,
    pub(crate) out: &'a mut O,
    pub(crate) err: &'a mut E,
}

/// The answer of a port whose bytes were put.
fn answer(put: Result<(), Failed>) -> Result<(), Stop>
    ensures ok { is_err result ≡ is_err put }
    ensures err { OnErr result (result ≡ Err Stop.SinkFault) }
{
    put.or(Err(Stop::SinkFault))
}

/// Puts the debug text, where the byte is not 0.
#[inline(never)]
fn put_debug_text<E: Sink>(core: &Core, err: &mut E, value: u8) -> Result<(), Failed>
    ensures { SinkEnded (debug_bytes value core.now) (is_err result) (E.state err.old) (E.state err.new) }
{
    if value == 0 {
        return Ok(());
    }
    let text = debug_text(&core.working, &core.returns);
    put_all(err, text.as_slice())
}

impl<'a, T: Tree, O: Sink, E: Sink> Bus<'a, T, O, E> {
    /// A bus over these four. Nothing is done to them.
    pub fn new(
        devices: &'a mut Devices,
        tree: &'a mut T,
        out: &'a mut O,
        err: &'a mut E,
    ) -> Bus<'a, T, O, E>
        ensures devices { result.devices.ghost_name ≡ devices.entry.ghost_name }
        ensures devices_now { result.devices.now ≡ devices.old }
        ensures tree { result.tree.ghost_name ≡ tree.entry.ghost_name }
        ensures tree_now { result.tree.now ≡ tree.old }
        ensures out { result.out.ghost_name ≡ out.entry.ghost_name }
        ensures out_now { result.out.now ≡ out.old }
        ensures err { result.err.ghost_name ≡ err.entry.ghost_name }
        ensures err_now { result.err.now ≡ err.old }
    {
        Bus {
            devices,
            tree,
            out,
            err,
        }
    }

    /// The byte last stored in a port.
    pub fn stored(&self, port: u8) -> u8
        ensures held { result ≡ held self.now port }
        ensures stored { (state : DeviceState) → DevicesRepresent self.now.devices.now state → result ≡ stored state.history port }
    {
        self.devices.stored(port)
    }

    /// The short in a port and the next one, its high byte first.
    pub fn stored_short(&self, port: u8) -> u16
        requires { port < 255 }
        ensures { (state : DeviceState) → DevicesRepresent self.now.devices.now state → result ≡ stored_short state.history port }
    {
        self.devices.stored_short(port)
    }

    /// Stores a byte in a port, without acting.
    pub fn store(&mut self, port: u8, value: u8)
        ensures devices { Becomes (contents_on T.Tree) (λ state. storing ((port, value) ∷ []) state) self.old self.new }
        ensures others { ChangesDevices self.old self.new }
        ensures frames { frames_begun self.new ≡ frames_begun self.old }
    {
        self.devices.store(port, value)
    }

    /// Stores an event of the console: its byte in port 12, and the byte of its kind in port 17.
    pub fn give(&mut self, value: u8, kind: u8)
        ensures devices { Becomes (contents_on T.Tree)
            (λ state. storing ((CONSOLE_READ, value) ∷ (CONSOLE_TYPE, kind) ∷ []) state) self.old self.new }
        ensures others { ChangesDevices self.old self.new }
        ensures frames { frames_begun self.new ≡ frames_begun self.old }
    {
        self.devices.give(value, kind);
    }

    /// Tells the program by port 17 whether arguments will come.
    pub fn make_ready(&mut self, arguments: usize)
        ensures devices { Becomes (contents_on T.Tree) (λ state. storing (made_ready arguments) state) self.old self.new }
        ensures others { ChangesDevices self.old self.new }
        ensures frames { frames_begun self.new ≡ frames_begun self.old }
    {
        self.devices.make_ready(arguments);
    }

    /// Stores an input at its ports, as its vector finds them.
    pub fn apply(&mut self, input: &Input)
        ensures devices { Becomes (contents_on T.Tree) (λ state. storing (stores_of (stored state.history) input.now) state) self.old self.new }
        ensures others { ChangesDevices self.old self.new }
        ensures frames { frames_begun self.new ≡ frames_begun self.old }
    {
        self.devices.apply(input);
    }

    /// Stores 0 at the ports of an input that are 0 again after its vector.
    pub fn settle(&mut self, input: &Input)
        ensures devices { Becomes (contents_on T.Tree) (λ state. storing (stores_after input.now) state) self.old self.new }
        ensures others { ChangesDevices self.old self.new }
        ensures frames { frames_begun self.new ≡ frames_begun self.old }
    {
        self.devices.settle(input);
    }

    /// Counts a frame that begins.
    pub fn frame_begins(&mut self)
        requires { frames_begun self.old < MOST_EVENTS }
        ensures devices { Becomes (contents_on T.Tree) (λ state. next_frame state) self.old self.new }
        ensures others { ChangesDevices self.old self.new }
        ensures frames { frames_begun self.new ≡ frames_begun self.old + 1 }
    {
        self.devices.begin_frame();
    }

    /// How many frames have begun.
    pub fn frames(&self) -> u32
        ensures begun { result ≡ frames_begun self.now }
        ensures frames { (state : DeviceState) → DevicesRepresent self.now.devices.now state → result ≡ state.frames }
    {
        self.devices.time.frames
    }

    /// The screen.
    pub fn screen(&self) -> &Screen
        ensures held { result.now ≡ screen_of self.now }
        ensures screen { (state : DeviceState) → DevicesRepresent self.now.devices.now state → layers.RepresentsPicture result.now state.picture }
    {
        &self.devices.screen
    }

    /// Composes the marked rows of the screen, takes their marks away, and says how many rows there were. It changes no pixel.
    pub fn refresh(&mut self) -> u16
        ensures marked { (state : DeviceState) → DevicesRepresent self.old.devices.now state → result ≡ marked_rows state.picture }
        ensures screen { layers.Refreshes (screen_of self.old) (screen_of self.new) result }
        ensures devices { Becomes (contents_on T.Tree) (λ state. screen_refreshed state) self.old self.new }
        ensures held { (port : ℕ) → held self.new port ≡ held self.old port }
        ensures others { ChangesDevices self.old self.new }
        ensures frames { frames_begun self.new ≡ frames_begun self.old }
    {
        refresh(self.devices)
    }

    /// The four colours that ports 08 to 0d hold.
    pub fn palette(&self) -> Palette
        ensures { (state : DeviceState) → DevicesRepresent self.now.devices.now state → result.colours ≡ colours_of (colour_bytes state.history) }
    {
        palette(self.devices)
    }

    /// Renders a frame: 735 pairs of samples, left then right, and true for each voice whose note ended in it.
    pub fn audio_frame(&mut self, memory: &Memory, into: &mut [i16; 1470]) -> [bool; 4]
        ensures frame { (state : DeviceState) → DevicesRepresent self.old.devices.now state → into.new ≡ frame_of memory.now state.sounds }
        ensures ends { (state : DeviceState) → DevicesRepresent self.old.devices.now state → result ≡ endings 735 state.sounds }
        ensures devices { Becomes (contents_on T.Tree) (λ state. rendered state) self.old self.new }
        ensures others { ChangesDevices self.old self.new }
        ensures frames { frames_begun self.new ≡ frames_begun self.old }
    {
        render(self.devices, memory, into)
    }

    /// Whether no voice plays a note that will end.
    pub fn is_endless(&self) -> bool
        ensures { result ≡ all_play_on self.now.devices.now.mixer }
    {
        is_endless(self.devices)
    }

    /// Lets a frame pass of which no samples are requested and in which no note can end.
    pub fn pass_frame(&mut self)
        requires { all_play_on self.old.devices.now.mixer ≡ true }
        ensures ends { (state : DeviceState) → DevicesRepresent self.old.devices.now state
            → endings 735 state.sounds ≡ false ∷ false ∷ false ∷ false ∷ [] }
        ensures devices { Becomes (contents_on T.Tree) (λ state. rendered state) self.old self.new }
        ensures others { ChangesDevices self.old self.new }
        ensures frames { frames_begun self.new ≡ frames_begun self.old }
    {
        pass_frame(self.devices);
    }

    /// Appends the whole piece to the file at the path. After `TreeFault` a prefix of it was appended.
    pub fn append(&mut self, path: &Path, piece: &[u8]) -> Result<(), Stop>
        requires { IsFileWhereKnown (T.state self.old.tree.now).contents path.now }
        ensures ended { Ended (map (λ byte. ToFile path.now byte) piece.now) (blame_for result)
            (outside_on (meaning_of T.Tree O.Sink E.Sink) self.old) (outside_on (meaning_of T.Tree O.Sink E.Sink) self.new) }
        ensures err { OnErr result (result ≡ Err Stop.TreeFault) }
        ensures some { OnErr result (0 < length piece.now) }

        // The devices stay as they are, and each file that was there is there still.
        ensures devices { self.new.devices.now ≡ self.old.devices.now }
        ensures stands { OnOk result ((state : DeviceState) → BusRepresents (contents_on T.Tree) self.old state
            → BusRepresents (contents_on T.Tree) self.new (piece_appended path.now piece.now state)) }
        ensures same { SameBus T.Tree self.old self.new }
    {
        append_all(self.tree, path, piece).or(Err(Stop::TreeFault))
    }
}

impl<'a, T: Tree, O: Sink, E: Sink> Ports for Bus<'a, T, O, E> {
    ghost use Rattle.varvara_bus.specs.Bus.{meaning_of, bus_rules, bus_faults, held_page};

    ghost rules = { bus_rules (meaning_of T.Tree O.Sink E.Sink) };

    ghost faults = { bus_faults (meaning_of T.Tree O.Sink E.Sink) };

    ghost stored = { held_page };

    fn dei(&self, core: &Core, port: u8) -> u8 {
        read(self.devices, core, port)
    }

    #[inline(always)]
    fn deo(&mut self, core: &mut Core, port: u8, value: u8) -> Result<(), Stop> {
        self.devices.store(port, value);
        self.act(core, Action::of(port), value)
    }

    fn stored_page(&self) -> &[u8; 256]
        ensures held { result.now ≡ held_page self.now }
        ensures stored { (state : DeviceState) → DevicesRepresent self.now.devices.now state
            → (port : ℕ) → slice_index result.now port ≡ stored state.history port }
    {
        &self.devices.page
    }
}

impl<'a, T: Tree, O: Sink, E: Sink> Bus<'a, T, O, E> {
    /// Does what a write of a byte does once the byte is stored. Most ports only hold a byte: no call is made for them.
    #[inline(always)]
    fn act(&mut self, core: &mut Core, action: Action, value: u8) -> Result<(), Stop>
        ensures acted { ActEnds (meaning_of T.Tree O.Sink E.Sink) self.old core.old action value self.new core.new result }
        ensures ledger { Ledger (bus_faults (meaning_of T.Tree O.Sink E.Sink) self.old)
            (bus_faults (meaning_of T.Tree O.Sink E.Sink) self.new) (result_blame result) }
    {
        match action {
            Action::Stores => Ok(()),
            _ => self.act_on_device(core, action, value),
        }
    }

    /// The same. It is large, and so it stays out of the loop of instructions.
    #[inline(never)]
    fn act_on_device(&mut self, core: &mut Core, action: Action, value: u8) -> Result<(), Stop>
        ensures acted { ActEnds (meaning_of T.Tree O.Sink E.Sink) self.old core.old action value self.new core.new result }
        ensures ledger { Ledger (bus_faults (meaning_of T.Tree O.Sink E.Sink) self.old)
            (bus_faults (meaning_of T.Tree O.Sink E.Sink) self.new) (result_blame result) }
    {
        match action {
            Action::Stores => Ok(()),
            Action::Expands => {
                expansion(&mut core.memory, self.devices.stored_short(0x02));
                Ok(())
            }
            Action::SetsWorkingPointer => {
                core.working.set_pointer(value);
                Ok(())
            }
            Action::SetsReturnPointer => {
                core.returns.set_pointer(value);
                Ok(())
            }
            Action::PutsDebugText => { answer(put_debug_text(core, self.err, value)) }
            Action::PutsOut => answer(console_write(self.out, self.err, 0x18, value)),
            Action::PutsErr => answer(console_write(self.out, self.err, 0x19, value)),
            Action::AsksWidth => {
                ask_width(self.devices);
                Ok(())
            }
            Action::AsksHeight => {
                ask_height(self.devices);
                Ok(())
            }
            Action::DrawsPixel => {
                draw_pixel(self.devices, value);
                Ok(())
            }
            Action::DrawsSprite => {
                draw_sprite(self.devices, &core.memory, value);
                Ok(())
            }
            Action::StartsNote(voice) => {
                start_note(self.devices, voice);
                Ok(())
            }
            Action::ActsOnFile(number, act) => {
                act_on_file(self.devices, self.tree, &mut core.memory, number, act)
            }
        }
    }
}
