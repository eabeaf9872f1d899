//! What a note is from its start on.
ghost use Rattle.std.specs.Prelude.{◌≡◌, ◌+◌, ◌<◌, ◌≤◌, false, slice_index};
ghost use Rattle.audio_mixer.specs.Notes.{
  advances,
  key_of,
  advance_of,
  period_of,
  length_of,
  is_silent,
  is_repeating,
  attack_of,
  decay_of,
  sustain_of,
  release_of,
};

/// How many samples a digit of the envelope lasts: four frames.
const STAGE: u32 = 2940;

/// What starts a note: the bytes of a voice's ports at that moment.
#[derive(Clone, Copy)]
pub struct Start {
    /// Attack, decay, sustain and release: a digit each, of 2940 samples.
    pub adsr: u16,
    /// The length of the sample in bytes.
    pub length: u16,
    /// The address of the sample.
    pub addr: u16,
    /// The volume: left in the high digit, right in the low one.
    pub volume: u8,
    /// The key, with the bit `80` for a note that does not repeat its sample.
    pub pitch: u8,
}

/// The ages, in samples, at which the parts of an envelope are over.
#[derive(Clone, Copy)]
pub(crate) struct Envelope {
    pub attack: u32,
    pub decay: u32,
    pub sustain: u32,
    pub release: u32,
    ghost falls_later: { attack ≤ decay },
    ghost stays_later: { decay ≤ sustain },
    ghost ends_later: { sustain ≤ release },
    ghost ends: { release ≤ 176400 },
}

/// The advance of the twelve tones from C of the ninth octave.
fn tone(place: u8) -> u32
    requires { place < 12 }
    ensures value { result ≡ slice_index advances place }
    ensures most { result ≤ 990748 }
{
    match place {
        0 => 0x80000,
        1 => 0x879c8,
        2 => 0x8facd,
        3 => 0x9837f,
        4 => 0xa1451,
        5 => 0xaadc1,
        6 => 0xb504f,
        7 => 0xbfc88,
        8 => 0xcb2ff,
        9 => 0xd7450,
        10 => 0xe411f,
        _ => 0xf1a1c,
    }
}

impl Start {
    pub(crate) fn key(&self) -> u8
        ensures { result ≡ key_of self.now }
    {
        self.pitch % 128
    }

    pub(crate) fn repeats(&self) -> bool
        ensures { result ≡ is_repeating self.now }
    {
        self.pitch < 128
    }

    /// The length of the sample, which ends at the end of memory.
    pub(crate) fn len(&self) -> u32
        ensures value { result ≡ length_of self.now }
        ensures in_memory { result + self.now.addr ≤ 65536 }
    {
        u32::from(self.length).min(65536 - u32::from(self.addr))
    }

    /// Whether a start stops the voice.
    pub(crate) fn is_silent(&self) -> bool
        ensures value { result ≡ is_silent self.now }
        ensures key { result ≡ false → key_of self.now < 108 }
        ensures length { result ≡ false → 0 < length_of self.now }
    {
        self.key() >= 108 || self.len() == 0
    }

    #[tactic(auto, unfolding(crate::specs::Notes::advance_of))]
    pub(crate) fn advance(&self) -> u32
        requires { key_of self.now < 108 }
        ensures value { result ≡ advance_of self.now }
        ensures most { result ≤ 990748 }
    {
        let key = self.key();
        tone(key % 12) >> (8 - u32::from(key / 12))
    }

    #[tactic(auto, unfolding(crate::specs::Notes::period_of))]
    pub(crate) fn period(&self) -> u32
        requires { 0 < length_of self.now }
        ensures value { result ≡ period_of self.now }
        ensures some { 0 < result }
        ensures most { result ≤ 11042816 }
    {
        let len = self.len();
        if len > 256 { 65536 } else { 11_042_816 / len }
    }

    pub(crate) fn envelope(&self) -> Envelope
        ensures attack { result.attack ≡ attack_of self.now }
        ensures decay { result.decay ≡ decay_of self.now }
        ensures sustain { result.sustain ≡ sustain_of self.now }
        ensures release { result.release ≡ release_of self.now }
    {
        let attack = u32::from(self.adsr / 4096) * STAGE;
        let decay = attack + u32::from(self.adsr / 256 % 16) * STAGE;
        let sustain = decay + u32::from(self.adsr / 16 % 16) * STAGE;
        let release = sustain + u32::from(self.adsr % 16) * STAGE;
        Envelope {
            attack,
            decay,
            sustain,
            release,
        }
    }
}

impl Envelope {
    ghost use Rattle.audio_mixer.specs.Notes.{loudness};

    /// The loudness at an age, 0 to 2184.
    #[tactic(auto, unfolding(crate::specs::Notes::loudness))]
    pub(crate) fn at(&self, age: u32) -> u32
        ensures value { result ≡ loudness self.now.attack self.now.decay self.now.sustain self.now.release age }
        ensures most { result ≤ 2184 }
    {
        if self.release == 0 {
            2184
        } else if age < self.attack {
            2184 * age / self.attack
        } else if age < self.decay {
            1092 * (2 * self.decay - self.attack - age) / (self.decay - self.attack)
        } else if age < self.sustain {
            1092
        } else if age < self.release {
            1092 * (self.release - age) / (self.release - self.sustain)
        } else {
            0
        }
    }
}
