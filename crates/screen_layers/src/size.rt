//! The size of a screen, and where its rows begin in a list.
ghost use Rattle.std.specs.Prelude.{◌≡◌, ◌+◌, ◌*◌, ◌<◌, ◌≤◌};

/// The size of a screen in pixels.
#[derive(Clone, Copy)]
pub struct Size {
    pub width: u16,
    pub height: u16,
}

/// A rectangle: the first column and row in it, and the first ones past it.
#[derive(Clone, Copy)]
pub struct Area {
    pub left: u16,
    pub right: u16,
    pub top: u16,
    pub bottom: u16,
}

impl Size {
    /// Where a row begins in a list of rows of the width; the row past the last begins at the list's end.
    #[tactic(auto, using(crate::proofs::Rows::row_within))]
    pub fn start(self, y: u16) -> usize
        requires { y ≤ self.height }
        ensures value { result ≡ y * self.width }
        ensures before_end { result ≤ self.height * self.width }
        ensures within { y < self.height → result + self.width ≤ self.height * self.width }
        ensures most { self.width ≤ 2047 → self.height ≤ 2047 → result ≤ 4190209 }
    {
        usize::from(y) * usize::from(self.width)
    }
}
