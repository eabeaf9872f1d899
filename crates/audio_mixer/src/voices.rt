//! One voice: the note that it plays, and how far it has come.
ghost use Rattle.std.specs.Prelude.{◌≡◌, ℕ, ◌+◌, ◌*◌, ◌<◌, ◌≤◌, ◌/◌, ◌%◌, false};
ghost use Rattle.audio_mixer.specs.Notes.{
  heard,
  level,
  is_silent,
  length_of,
  advance_of,
  period_of,
  attack_of,
  decay_of,
  sustain_of,
  release_of,
};

use super::notes::{Envelope, Start};
use uxn_memory::Memory;

/// How many pairs of samples a frame has.
const PAIRS: usize = 735;

/// A note that goes on: what its start determines, and where it stands after the samples so far.
#[derive(Clone, Copy)]
pub(crate) struct Playing {
    start: Start,
    len: u32,
    period: u32,
    /// The whole bytes that one sample goes on, and what is left of its advance.
    whole: u32,
    rest: u32,
    envelope: Envelope,
    /// The samples so far, but no more than the envelope lasts.
    age: u32,
    /// What the advances have gone on past the last whole byte, below the period.
    phase: u32,
    /// The place in the sample.
    place: u32,
    ghost sounding: { is_silent start ≡ false },
    ghost len_of_start: { len ≡ length_of start },
    ghost period_of_start: { period ≡ period_of start },
    ghost whole_of_start: { whole ≡ advance_of start / period_of start },
    ghost rest_of_start: { rest ≡ advance_of start % period_of start },
    ghost attack_of_start: { envelope.attack ≡ attack_of start },
    ghost decay_of_start: { envelope.decay ≡ decay_of start },
    ghost sustain_of_start: { envelope.sustain ≡ sustain_of start },
    ghost release_of_start: { envelope.release ≡ release_of start },
    ghost in_memory: { len + start.addr ≤ 65536 },
    ghost few_bytes: { whole ≤ 990748 },
    ghost small_rest: { rest ≤ 990748 },
    ghost rest_in_period: { rest < period },
    ghost some_period: { 0 < period },
    ghost short_period: { period ≤ 11042816 },
    ghost in_envelope: { age ≤ envelope.release },
    ghost in_period: { phase < period },
    ghost in_sample: { place < len },
}

/// A voice, which plays a note or is stopped.
#[derive(Clone, Copy)]
pub(crate) struct Voice {
    playing: Option<Playing>,
}

/// The samples of the two sides at one moment.
#[derive(Clone, Copy)]
pub(crate) struct Pair {
    pub left: i16,
    pub right: i16,
}

/// The quotient and the rest of two rests together.
fn carried(sum: u32, unit: u32) -> (u32, u32)
    requires { sum < 2 * unit }
    ensures quotient { result.0 ≡ sum / unit }
    ensures rest { result.1 ≡ sum % unit }
    ensures most { result.0 ≤ 1 }
{
    if sum < unit {
        (0, sum)
    } else {
        (1, sum - unit)
    }
}

/// A byte of the sample at a loudness and a volume.
fn heard(byte: u8, envelope: u32, volume: u8) -> i16
    requires envelope { envelope ≤ 2184 }
    requires volume { volume < 16 }
    ensures { result ≡ heard byte envelope volume }
{
    let loudness = envelope * u32::from(volume);
    if byte < 0x80 {
        -((u32::from(0x80 - byte) * loudness / 384) as i16)
    } else {
        (u32::from(byte - 0x80) * loudness / 384) as i16
    }
}

/// How loud a side is shown.
fn level(envelope: u32, volume: u8) -> u8
    requires envelope { envelope ≤ 2184 }
    requires volume { volume < 16 }
    ensures value { result ≡ level envelope volume }
    ensures most { result ≤ 15 }
{
    if volume == 0 {
        0
    } else {
        (1 + envelope * u32::from(volume) / 2048).min(15) as u8
    }
}

impl Playing {
    ghost use Rattle.std.specs.Prelude.{◌≡◌, ℕ, ◌+◌, ◌<◌, ◌≤◌, min, true, false, All, IfSome, IfNone};
    ghost use Rattle.audio_mixer.specs.Notes.{is_silent, is_repeating, is_released, is_played, note_has_ended};
    ghost use Rattle.audio_mixer.specs.Notes.{wrapped, envelope_at, heard, left_of, right_of};
    ghost use Rattle.audio_mixer.specs.Sounds.{output_of, Note, note_is_over, is_endless};
    ghost use Rattle.audio_mixer.specs.Voices.{Plays, IsAhead, GivesPair, IsShort, AddsSound};

    /// The note at its start, unless it is silent.
    fn new(start: &Start) -> Option<Playing>
        ensures plays { IfSome result (λ playing. Plays playing start.now 0) }
        ensures sounding { IfSome result (λ playing. is_silent start.now ≡ false) }
        ensures silent { IfNone result (is_silent start.now ≡ true) }
    {
        if start.is_silent() {
            return None;
        }
        let (advance, period) = (start.advance(), start.period());
        Some(Playing {
            start: *start,
            len: start.len(),
            period,
            whole: advance / period,
            rest: advance % period,
            envelope: start.envelope(),
            age: 0,
            phase: 0,
            place: 0,
        })
    }

    /// Whether the envelope is over.
    #[tactic(auto, unfolding(crate::specs::Notes::is_released))]
    fn is_released(&self) -> bool
        ensures { (age : ℕ) → Plays self.now self.now.start age → result ≡ is_released self.now.start age }
    {
        self.envelope.release > 0 && self.age >= self.envelope.release
    }

    /// The samples so far once there is one more, but no more than the envelope lasts.
    fn next_age(&self) -> u32
        ensures { result ≡ min (self.now.age + 1) self.now.envelope.release }
    {
        (self.age + 1).min(self.envelope.release)
    }

    /// The place so many bytes ahead, or none where the sample is over and does not repeat.
    #[tactic(auto, unfolding(crate::specs::Notes::wrapped))]
    fn place_ahead(&self, steps: u32) -> Option<u32>
        requires { steps ≤ 990749 }
        ensures some { IfSome result (λ place. place ≡ wrapped self.now.start (self.now.place + steps)) }
        ensures within { IfSome result (λ place. place < self.now.len) }
        ensures once { IfNone result (is_repeating self.now.start ≡ false) }
        ensures over { IfNone result (self.now.len ≤ self.now.place + steps) }
    {
        let place = self.place + steps;
        if place < self.len {
            Some(place)
        } else if self.start.repeats() {
            Some(place % self.len)
        } else {
            None
        }
    }

    /// The phase and the place of the next sample, or none where the sample is over and does not repeat.
    fn ahead(&self) -> Option<(u32, u32)>
        ensures some { IfSome result (λ to. (age : ℕ) → Plays self.now self.now.start age → IsAhead self.now.start age to.0 to.1) }
        ensures in_period { IfSome result (λ to. to.0 < self.now.period) }
        ensures in_sample { IfSome result (λ to. to.1 < self.now.len) }
        ensures none { IfNone result ((age : ℕ) → Plays self.now self.now.start age → is_played self.now.start age ≡ true) }
    {
        let (carry, phase) = carried(self.phase + self.rest, self.period);
        match self.place_ahead(self.whole + carry) {
            Some(place) => Some((phase, place)),
            None => None,
        }
    }

    /// The next pair of samples, or none where the note ends.
    fn next(&mut self, memory: &Memory) -> Option<Pair>
        ensures some { IfSome result (λ pair. (age : ℕ) → Plays self.old self.old.start age
            → GivesPair memory.now self.old.start age pair × Plays self.new self.old.start (age + 1)) }
        ensures none { IfNone result ((age : ℕ) → Plays self.old self.old.start age → note_has_ended self.old.start age ≡ true) }
    {
        if self.is_released() {
            return None;
        }
        let Some((phase, place)) = self.ahead() else {
            return None;
        };
        let byte = memory.get(self.start.addr + place as u16);
        let pair = self.pair(byte);
        self.age = self.next_age();
        self.phase = phase;
        self.place = place;
        Some(pair)
    }

    /// Adds the samples of a frame, and says whether the note ends in it.
    fn add_frame(&mut self, memory: &Memory, into: &mut [i16; 1470]) -> bool
        ensures adds { (age : ℕ) → Plays self.old self.old.start age → All IsShort into.old
            → AddsSound memory.now (Note self.old.start age) 735 into.old into.new }
        ensures ends { (age : ℕ) → Plays self.old self.old.start age → result ≡ note_is_over self.old.start (age + 735) }
        ensures plays { result ≡ false → (age : ℕ) → Plays self.old self.old.start age → Plays self.new self.old.start (age + 735) }
    {
        for place in 0..PAIRS {
            let Some(pair) = self.next(memory) else {
                return true;
            };
            into[2 * place] = into[2 * place].wrapping_add(pair.left);
            into[2 * place + 1] = into[2 * place + 1].wrapping_add(pair.right);
        }
        false
    }

    /// Whether the note goes on without end.
    fn is_endless(&self) -> bool
        ensures { result ≡ is_endless self.now.start }
    {
        self.start.repeats() && self.envelope.release == 0
    }

    /// Lets a frame of 735 samples pass of a note that goes on without end.
    fn pass(&mut self)
        requires { is_endless self.old.start ≡ true }
        ensures { (age : ℕ) → Plays self.old self.old.start age → Plays self.new self.old.start (age + 735) }
    {
        let phase = self.phase + 735 * self.rest;
        self.place = (self.place + 735 * self.whole + phase / self.period) % self.len;
        self.phase = phase % self.period;
    }

    /// How loud the note is, 0 to 2184.
    fn loudness(&self) -> u32
        ensures value { (age : ℕ) → Plays self.now self.now.start age → result ≡ envelope_at self.now.start age }
        ensures most { result ≤ 2184 }
    {
        self.envelope.at(self.age)
    }

    /// The samples that a byte gives.
    fn pair(&self, byte: u8) -> Pair
        ensures left { (age : ℕ) → Plays self.now self.now.start age
            → result.left ≡ heard byte (envelope_at self.now.start age) (left_of self.now.start) }
        ensures right { (age : ℕ) → Plays self.now self.now.start age
            → result.right ≡ heard byte (envelope_at self.now.start age) (right_of self.now.start) }
    {
        let loudness = self.loudness();
        Pair {
            left: heard(byte, loudness, self.start.volume / 16),
            right: heard(byte, loudness, self.start.volume % 16),
        }
    }

    /// How loud the note is shown to be.
    fn output(&self) -> u8
        ensures { (age : ℕ) → Plays self.now self.now.start age → result ≡ output_of (Note self.now.start age) }
    {
        let loudness = self.loudness();
        level(loudness, self.start.volume / 16) * 16 + level(loudness, self.start.volume % 16)
    }
}

impl Voice {
    ghost use Rattle.std.specs.Prelude.{◌≡◌, ℕ, true, false, not, All};
    ghost use Rattle.audio_mixer.specs.Sounds.{Sound, Silence, begun, later, can_end, ends_within, position_of, output_of};
    ghost use Rattle.audio_mixer.specs.Voices.{Sounds, IsShort, AddsSound, plays_on};

    /// A voice that plays nothing.
    pub(crate) fn stopped() -> Voice
        ensures { Sounds result Silence }
    {
        Voice { playing: None }
    }

    /// Starts a note in place of what the voice plays.
    pub(crate) fn start(&mut self, note: &Start)
        ensures { Sounds self.new (begun note.now) }
    {
        self.playing = Playing::new(note);
    }

    /// Adds the samples of a frame, and says whether the note ends in it.
    pub(crate) fn add_frame(&mut self, memory: &Memory, into: &mut [i16; 1470]) -> bool
        ensures adds { (sound : Sound) → Sounds self.old sound → All IsShort into.old → AddsSound memory.now sound 735 into.old into.new }
        ensures ends { (sound : Sound) → Sounds self.old sound → result ≡ ends_within 735 sound }
        ensures sounds { (sound : Sound) → Sounds self.old sound → Sounds self.new (later 735 sound) }
    {
        let Some(mut playing) = self.playing else {
            return false;
        };
        let ends = playing.add_frame(memory, into);
        self.playing = if ends { None } else { Some(playing) };
        ends
    }

    /// Whether the voice plays nothing, or a note that goes on without end.
    pub(crate) fn is_endless(&self) -> bool
        ensures sound { (sound : Sound) → Sounds self.now sound → result ≡ not (can_end sound) }
        ensures held { result ≡ plays_on self.now.playing }
    {
        match &self.playing {
            Some(playing) => playing.is_endless(),
            None => true,
        }
    }

    /// Lets a frame of 735 samples pass, in which no note can end.
    pub(crate) fn pass(&mut self)
        requires { plays_on self.old.playing ≡ true }
        ensures ends { (sound : Sound) → Sounds self.old sound → ends_within 735 sound ≡ false }
        ensures sounds { (sound : Sound) → Sounds self.old sound → Sounds self.new (later 735 sound) }
    {
        if let Some(mut playing) = self.playing {
            playing.pass();
            self.playing = Some(playing);
        }
    }

    /// The place in the sample.
    pub(crate) fn position(&self) -> u16
        ensures { (sound : Sound) → Sounds self.now sound → result ≡ position_of sound }
    {
        match self.playing {
            Some(playing) => playing.place as u16,
            None => 0,
        }
    }

    /// How loud the voice is.
    pub(crate) fn output(&self) -> u8
        ensures { (sound : Sound) → Sounds self.now sound → result ≡ output_of sound }
    {
        match self.playing {
            Some(playing) => playing.output(),
            None => 0,
        }
    }
}
