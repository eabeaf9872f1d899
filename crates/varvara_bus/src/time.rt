//! The moment of a machine: its clock at the start, and the frames since.
ghost use Rattle.std.specs.Prelude.{◌≡◌, ◌+◌, ◌/◌, ◌%◌, ◌<◌, ◌≤◌, pos, neg_ℤ, ◌+ℤ◌, ◌≤ℤ◌};
ghost use Rattle.uxn_limits.specs.declared.limits.TheConstants.{MOST_EVENTS, LAST_SECOND, LAST_OFFSET};
ghost use Rattle.clock_port.specs.Calendar.{civil_fields};

use clock_port::{CivilFields, fields};

/// How many frames there are in a second.
const RATE: u32 = 60;

/// The moment that a run begins at, and how far ahead of UTC the machine's clock is.
#[derive(Clone, Copy)]
pub struct Clock {
    /// Seconds since 1970-01-01 00:00:00 UTC, 0 to `LAST_SECOND`.
    pub seconds: i64,
    /// Minutes ahead of UTC, at most `LAST_OFFSET` to either side.
    pub offset: i32,
}

/// A clock at the start of a run, how many frames have begun since, and what the clock shows now.
#[derive(Drop)]
pub(crate) struct Time {
    pub(crate) seconds: i64,
    pub(crate) offset: i32,
    pub(crate) frames: u32,
    pub(crate) shown: CivilFields,
    ghost seconds_from: { pos 0 ≤ℤ seconds },
    ghost seconds_to: { seconds ≤ℤ pos LAST_SECOND },
    ghost offset_from: { neg_ℤ (pos LAST_OFFSET) ≤ℤ offset },
    ghost offset_to: { offset ≤ℤ pos LAST_OFFSET },
    ghost frames_to: { frames ≤ MOST_EVENTS },
    ghost shows: { shown ≡ civil_fields (seconds +ℤ pos (frames / 60)) offset },
}

impl Time {
    /// A clock at the start of a run.
    pub(crate) fn new(clock: Clock) -> Time
        requires seconds_from { pos 0 ≤ℤ clock.seconds }
        requires seconds_to { clock.seconds ≤ℤ pos LAST_SECOND }
        requires offset_from { neg_ℤ (pos LAST_OFFSET) ≤ℤ clock.offset }
        requires offset_to { clock.offset ≤ℤ pos LAST_OFFSET }
        ensures seconds { result.seconds ≡ clock.seconds }
        ensures offset { result.offset ≡ clock.offset }
        ensures frames { result.frames ≡ 0 }
    {
        Time {
            seconds: clock.seconds,
            offset: clock.offset,
            frames: 0,
            shown: fields(clock.seconds, clock.offset),
        }
    }

    /// Counts a frame that begins. What the clock shows is computed where a second has passed, and at no read of a port.
    pub(crate) fn begin_frame(&mut self)
        requires { self.old.frames < MOST_EVENTS }
        ensures seconds { self.new.seconds ≡ self.old.seconds }
        ensures offset { self.new.offset ≡ self.old.offset }
        ensures frames { self.new.frames ≡ self.old.frames + 1 }
    {
        self.frames += 1;
        if self.frames % RATE == 0 {
            self.shown = fields(self.seconds + i64::from(self.frames / RATE), self.offset);
        }
    }

    /// What the clock shows: a second passes in 60 frames.
    #[inline(always)]
    pub(crate) fn shown(&self) -> &CivilFields
        ensures { result.now ≡ civil_fields (self.now.seconds +ℤ pos (self.now.frames / 60)) self.now.offset }
    {
        &self.shown
    }
}
