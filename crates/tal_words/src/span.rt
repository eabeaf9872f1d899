//! Where words stand in a source.

ghost use Rattle.std.specs.Prelude.{◌≡◌};
ghost use Rattle.tal_words.specs.Source.{bytes_at};

/// A part of a source, from the byte `start` up to the byte before `end`. Offsets count from 0.
#[derive(Clone, Copy)]
pub struct Span {
    pub start: u32,
    pub end: u32,
}

impl Span {
    /// The bytes of the source that the span covers, as far as the source has them.
    pub fn text(self, source: &[u8]) -> &[u8]
        ensures { result.now ≡ bytes_at source.now self }
    {
        let end = (self.end as usize).min(source.len());
        let start = (self.start as usize).min(end);
        &source[start..end]
    }
}

/// A word of the source, and the position of its first byte. Lines and columns count from 1, and a
/// column counts bytes.
#[derive(Clone, Copy)]
pub struct Word {
    pub span: Span,
    pub line: u32,
    pub column: u32,
}

/// A word of the expanded list: its bytes, and the source word outside all macro bodies from which
/// it came.
#[derive(Clone, Copy)]
pub struct Expanded {
    pub text: Span,
    pub origin: Word,
}
