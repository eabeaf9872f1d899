//! The files that a run appends to: pictures and samples.
ghost use Rattle.std.specs.Prelude.{◌≡◌, ◌*◌, ◌<◌, IfSome, length, map};
ghost use Rattle.screen_layers.specs.Pictures.{picture_row_of};
ghost use Rattle.audio_mixer.specs.Laws.{sample_short};
ghost use Rattle.uxn_io_traits.specs.Outside.{ToFile};
ghost use Rattle.varvara_bus.specs.Bus.{meaning_of, screen_of};
ghost use Rattle.vector_loop.specs.Making.{MadeOrCut};
ghost use Rattle.vector_loop.specs.Outputs.{IsOutput, appended_to, picture_bytes, samples_bytes};

use screen_frame::{Palette, ppm_head};
use uxn_io_traits::{Path, Sink, Tree};
use uxn_opcodes::Stop;
use varvara_bus::Bus;

/// The most bytes that a row of a picture has.
const ROW: usize = 6141;

/// How many samples a frame has, left and right.
const SAMPLES: usize = 1470;

/// The files that a run appends to.
#[derive(Clone, Copy)]
pub struct Outputs {
    /// Where pictures go.
    pub frames: Option<Path>,
    /// Where samples go.
    pub samples: Option<Path>,
}

/// Appends bytes to a file.
fn append_to<'a, T: Tree, O: Sink, E: Sink>(
    bus: &mut Bus<'a, T, O, E>,
    path: &Path,
    bytes: &[u8],
) -> Result<(), Stop>
    requires there { IsOutput bus.old.devices.now.root (T.state bus.old.tree.now).contents path.now }
    ensures { MadeOrCut (meaning_of T.Tree O.Sink E.Sink) bus.old bus.new
        (λ state. map (λ byte. ToFile path.now byte) bytes.now) result }
{
    bus.append(path, bytes)
}

/// Appends a row of the picture.
fn append_row<'a, T: Tree, O: Sink, E: Sink>(
    bus: &mut Bus<'a, T, O, E>,
    path: &Path,
    palette: &Palette,
    y: u16,
    row: &mut [u8; 6141],
) -> Result<(), Stop>
    requires there { IsOutput bus.old.devices.now.root (T.state bus.old.tree.now).contents path.now }
    requires row { y < (screen_of bus.old).height }
    ensures { MadeOrCut (meaning_of T.Tree O.Sink E.Sink) bus.old bus.new
        (λ state. map (λ byte. ToFile path.now byte) (picture_row_of palette.now.colours state.picture y)) result }
{
    let count = bus.screen().picture_row(y, palette, row);
    append_to(bus, path, &row[..count])
}

/// Appends the picture that is shown. It is rare and large, and so it stays out of what calls it.
#[inline(never)]
fn append_picture<'a, T: Tree, O: Sink, E: Sink>(
    bus: &mut Bus<'a, T, O, E>,
    path: &Path,
) -> Result<(), Stop>
    requires there { IsOutput bus.old.devices.now.root (T.state bus.old.tree.now).contents path.now }
    ensures { MadeOrCut (meaning_of T.Tree O.Sink E.Sink) bus.old bus.new
        (λ state. map (λ byte. ToFile path.now byte) (picture_bytes state)) result }
{
    let palette = bus.palette();
    let screen = bus.screen();
    let height = screen.height();
    let head = ppm_head(screen.width(), height);
    append_to(bus, path, head.as_slice())?;
    let mut row = [0; ROW];
    for y in 0..height {
        append_row(bus, path, &palette, y, &mut row)?;
    }
    Ok(())
}

/// Appends the picture that is shown to an output, where it is requested.
pub(crate) fn keep_picture<'a, T: Tree, O: Sink, E: Sink>(
    bus: &mut Bus<'a, T, O, E>,
    output: &Option<Path>,
) -> Result<(), Stop>
    requires there { IfSome output.now (IsOutput bus.old.devices.now.root (T.state bus.old.tree.now).contents) }
    ensures { MadeOrCut (meaning_of T.Tree O.Sink E.Sink) bus.old bus.new
        (λ state. appended_to output.now (picture_bytes state)) result }
{
    match output {
        None => Ok(()),
        Some(path) => append_picture(bus, path),
    }
}

/// Puts samples into a buffer as signed shorts, the low byte first.
fn put_samples(samples: &[i16], into: &mut [u8])
    requires room { length into.old ≡ 2 * length samples.now }
    ensures { into.new ≡ samples_bytes (map sample_short samples.now) }
{
    for i in 0..samples.len() {
        let short = samples[i].cast_unsigned();
        into[2 * i] = (short % 256) as u8;
        into[2 * i + 1] = (short / 256) as u8;
    }
}

/// Appends the samples of a frame to an output, where it is requested.
pub(crate) fn keep_samples<'a, T: Tree, O: Sink, E: Sink>(
    bus: &mut Bus<'a, T, O, E>,
    output: &Option<Path>,
    samples: &[i16; 1470],
) -> Result<(), Stop>
    requires there { IfSome output.now (IsOutput bus.old.devices.now.root (T.state bus.old.tree.now).contents) }
    ensures { MadeOrCut (meaning_of T.Tree O.Sink E.Sink) bus.old bus.new
        (λ state. appended_to output.now (samples_bytes (map sample_short samples.now))) result }
{
    match output {
        None => Ok(()),
        Some(path) => {
            let mut bytes = [0; 2 * SAMPLES];
            put_samples(samples, &mut bytes);
            append_to(bus, path, &bytes)
        }
    }
}
