//! Frames: the screen's vector, the samples, and the vectors of the voices whose notes end.
ghost use Rattle.std.specs.Prelude.{◌≡◌, ◌<◌};
ghost use Rattle.varvara_bus.specs.Bus.{contents_on};
ghost use Rattle.vector_loop.specs.Event.{unless_over, vector_where, ended_vectors, heard, shown_and_heard};
ghost use Rattle.vector_loop.specs.Follows.{models_of};
ghost use Rattle.vector_loop.specs.Answers.{of_vectors, HasTallyRoom, HasOutputs, Answers};

use crate::output::{Outputs, keep_samples};
use crate::runner::Runner;
use crate::watch::Watcher;
use uxn_io_traits::{Sink, Tree};
use uxn_limits::ports::{AUDIO_VECTOR, SCREEN_VECTOR, VOICE_PORTS};
use uxn_opcodes::Stop;

impl<'r, 'a, T: Tree, O: Sink, E: Sink, W: Watcher> Runner<'r, 'a, T, O, E, W> {
    /// Runs the vector of a voice, where its note has ended, unless the run is over.
    fn run_ended(&mut self, ended: bool, voice: u8) -> Result<(), Stop>
        requires voice { voice < 4 }
        requires room { HasTallyRoom self.old.tally self.old.budget (of_vectors 1) }
        ensures { Answers (models_of T.Tree O.Sink E.Sink W.Watcher) self.old self.new
            (unless_over (vector_where self.old.budget ended voice)) (of_vectors 1) result }
    {
        if self.is_over() {
            return Ok(());
        }
        if !ended {
            return Ok(());
        }
        self.run_vector_in(AUDIO_VECTOR + VOICE_PORTS * voice)
    }

    /// Runs the vectors of the voices whose notes have ended, in order, each unless the run is over.
    fn run_all_ended(&mut self, ended: &[bool; 4]) -> Result<(), Stop>
        requires { HasTallyRoom self.old.tally self.old.budget (of_vectors 4) }
        ensures { Answers (models_of T.Tree O.Sink E.Sink W.Watcher) self.old self.new
            (ended_vectors self.old.budget ended.now) (of_vectors 4) result }
    {
        for voice in 0..4u8 {
            self.run_ended(ended[usize::from(voice)], voice)?;
        }
        Ok(())
    }

    /// Gives the samples of a frame, or lets it pass where none are requested and no note can end.
    fn give_sound(&mut self, outputs: &Outputs) -> Result<(), Stop>
        requires outputs { HasOutputs (contents_on T.Tree) outputs.now self.old }
        requires room { HasTallyRoom self.old.tally self.old.budget (of_vectors 4) }
        ensures { Answers (models_of T.Tree O.Sink E.Sink W.Watcher) self.old self.new
            (heard self.old.budget outputs.now) (of_vectors 4) result }
    {
        if outputs.samples.is_none() && self.bus.is_endless() {
            self.bus.pass_frame();
            return Ok(());
        }
        self.give_samples(outputs)
    }

    /// Renders the samples of a frame, keeps them where they are requested, and runs the vectors of the voices whose notes
    /// have ended. Not inlined, so that a frame without sound does not pay for the buffer.
    #[inline(never)]
    fn give_samples(&mut self, outputs: &Outputs) -> Result<(), Stop>
        requires outputs { HasOutputs (contents_on T.Tree) outputs.now self.old }
        requires room { HasTallyRoom self.old.tally self.old.budget (of_vectors 4) }
        ensures { Answers (models_of T.Tree O.Sink E.Sink W.Watcher) self.old self.new
            (heard self.old.budget outputs.now) (of_vectors 4) result }
    {
        let mut samples = [0; 1470];
        let ended = self.bus.audio_frame(&self.core.memory, &mut samples);
        keep_samples(self.bus, &outputs.samples, &samples)?;
        self.run_all_ended(&ended)
    }

    /// Runs the screen's vector, and gives the samples unless the run is then over.
    pub(crate) fn show_and_sound(&mut self, outputs: &Outputs) -> Result<(), Stop>
        requires outputs { HasOutputs (contents_on T.Tree) outputs.now self.old }
        requires room { HasTallyRoom self.old.tally self.old.budget (of_vectors 5) }
        ensures { Answers (models_of T.Tree O.Sink E.Sink W.Watcher) self.old self.new
            (shown_and_heard self.old.budget outputs.now) (of_vectors 5) result }
    {
        self.run_vector_in(SCREEN_VECTOR)?;
        if self.is_over() {
            return Ok(());
        }
        self.give_sound(outputs)
    }
}
