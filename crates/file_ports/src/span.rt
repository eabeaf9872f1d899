//! Spans of memory.
ghost use Rattle.std.specs.Prelude.{◌≡◌, ◌+◌, ◌≤◌, min};
ghost use Rattle.file_ports.specs.Actions.{count_from};

/// So many bytes of memory from an address on, none past `ffff`.
#[derive(Clone, Copy)]
pub(crate) struct Span {
    pub(crate) at: u16,
    pub(crate) count: u16,
    ghost within: { at + count ≤ 65536 },
}

impl Span {
    /// The bytes that are meant by a length at an address.
    pub(crate) fn of(at: u16, length: u16) -> Span
        ensures { (result.at ≡ at) × (result.count ≡ count_from at length) }
    {
        let count = u32::from(length).min(65536 - u32::from(at)) as u16;
        Span { at, count }
    }

    /// Its first bytes, at most so many.
    pub(crate) fn first(self, most: u64) -> Span
        ensures { (result.at ≡ self.at) × (result.count ≡ min self.count most) }
    {
        let count = u64::from(self.count).min(most) as u16;
        Span { at: self.at, count }
    }
}
