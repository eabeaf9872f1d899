//! The four voices together.
use super::notes::Start;
use super::voices::Voice;
use uxn_memory::Memory;

/// The four voices of the audio device.
#[derive(Drop)]
pub struct Mixer {
    first: Voice,
    second: Voice,
    third: Voice,
    fourth: Voice,
}

impl Mixer {
    ghost use Rattle.std.specs.Prelude.{◌≡◌, ◌≢◌, ℕ, ◌<◌, true, false, not, ◌&&◌, [], ◌∷◌};
    ghost use Rattle.audio_mixer.specs.Sounds.{Sound, Silence, begun, later, can_end, started_on, position_of, output_of, endings, frame_of};
    ghost use Rattle.audio_mixer.specs.Voices.{Sounds, RepresentsSounds, all_play_on};

    /// Four voices that are stopped.
    pub fn new() -> Mixer
        ensures { RepresentsSounds result (λ voice. Silence) }
    {
        Mixer {
            first: Voice::stopped(),
            second: Voice::stopped(),
            third: Voice::stopped(),
            fourth: Voice::stopped(),
        }
    }

    /// Starts a note on a voice, 0 to 3, in place of what it plays. A note whose key is 108 or more, or that has no
    /// sample, stops the voice.
    pub fn start(&mut self, voice: u8, note: &Start)
        requires { voice < 4 }
        ensures { (sounds : ℕ → Sound) → RepresentsSounds self.old sounds → RepresentsSounds self.new (started_on voice note.now sounds) }
    {
        match voice {
            0 => self.first.start(note),
            1 => self.second.start(note),
            2 => self.third.start(note),
            _ => self.fourth.start(note),
        }
    }

    /// Renders a frame: 735 pairs of samples, left then right, and true for each voice whose note ended in it.
    pub fn render(&mut self, memory: &Memory, into: &mut [i16; 1470]) -> [bool; 4]
        ensures frame { (sounds : ℕ → Sound) → RepresentsSounds self.old sounds → into.new ≡ frame_of memory.now sounds }
        ensures ends { (sounds : ℕ → Sound) → RepresentsSounds self.old sounds → result ≡ endings 735 sounds }
        ensures sounds { (sounds : ℕ → Sound) → RepresentsSounds self.old sounds → RepresentsSounds self.new (λ voice. later 735 (sounds voice)) }
    {
        into.fill(0);
        [
            self.first.add_frame(memory, into),
            self.second.add_frame(memory, into),
            self.third.add_frame(memory, into),
            self.fourth.add_frame(memory, into),
        ]
    }

    /// Whether no voice plays a note that will end.
    pub fn is_endless(&self) -> bool
        ensures sounds { (sounds : ℕ → Sound) → RepresentsSounds self.now sounds → result
            ≡ (not (can_end (sounds 0)) && not (can_end (sounds 1)) && not (can_end (sounds 2)) && not (can_end (sounds 3))) }
        ensures held { result ≡ all_play_on self.now }
    {
        self.first.is_endless()
            && self.second.is_endless()
            && self.third.is_endless()
            && self.fourth.is_endless()
    }

    /// Lets a frame pass of which no samples are requested and in which no note can end.
    pub fn pass(&mut self)
        requires { all_play_on self.old ≡ true }
        ensures sounds { (sounds : ℕ → Sound) → RepresentsSounds self.old sounds → RepresentsSounds self.new (λ voice. later 735 (sounds voice)) }
        ensures ends { (sounds : ℕ → Sound) → RepresentsSounds self.old sounds → endings 735 sounds ≡ false ∷ false ∷ false ∷ false ∷ [] }
    {
        self.first.pass();
        self.second.pass();
        self.third.pass();
        self.fourth.pass();
    }

    /// A voice by its number.
    fn voice(&self, voice: u8) -> &Voice
        requires { voice < 4 }
        ensures { (sounds : ℕ → Sound) → RepresentsSounds self.now sounds → Sounds result.now (sounds voice) }
    {
        match voice {
            0 => &self.first,
            1 => &self.second,
            2 => &self.third,
            _ => &self.fourth,
        }
    }

    /// The place in the sample of a voice, 0 to 3; 0 where it is stopped.
    pub fn position(&self, voice: u8) -> u16
        requires { voice < 4 }
        ensures { (sounds : ℕ → Sound) → RepresentsSounds self.now sounds → result ≡ position_of (sounds voice) }
    {
        self.voice(voice).position()
    }

    /// How loud a voice, 0 to 3, is: left in the high digit, right in the low one, 0 where it is stopped.
    pub fn output(&self, voice: u8) -> u8
        requires { voice < 4 }
        ensures { (sounds : ℕ → Sound) → RepresentsSounds self.now sounds → result ≡ output_of (sounds voice) }
    {
        self.voice(voice).output()
    }
}
