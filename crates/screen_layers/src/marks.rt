//! The marks of a screen's rows.
ghost use Rattle.std.specs.Prelude.{ℕ, ◌≡◌, ◌⊎◌, ◌+◌, ◌==◌, ◌<◌, ◌≤◌, ◌&&◌, ◌||◌, Bool, true};
ghost use Rattle.std.specs.Prelude.{false, nat_le, nat_lt, if◌then◌else◌, List, Option, IfOk, length};
ghost use Rattle.screen_layers.specs.Layers.{MarksMore, mark_at};
ghost use Rattle.screen_layers.specs.Drawings.{fill, dot, tile, pixel_distance};

use crate::Moved;
use crate::size::{Area, Size};
use std::alloc::{AllocError, Global};
use std::marker::Model;

/// How many rows the greatest screen has.
const ROWS: usize = 2047;

/// A mark for each row of the greatest screen, which contracts see as a list.
#[derive(Drop)]
pub struct Marks {
    rows: Vec<bool>,
}

impl Model for Marks {
    ghost use Rattle.std.specs.Prelude.{◌≡◌, List, Bool, length};

    ghost Value = { List Bool };

    ghost view = { λ m. m.rows.items };

    ghost invariant = { λ m. length m.rows.items ≡ 2047 };
}

impl Marks {
    /// No row is marked.
    pub fn new(alloc: Global) -> Result<Marks, AllocError>
        ensures { IfOk result (λ marks. (y : ℕ) → mark_at marks y ≡ false) }
    {
        Ok(Marks {
            rows: vec![in alloc; false; ROWS]?,
        })
    }

    /// Takes all marks away.
    pub fn clear(&mut self)
        ensures { (y : ℕ) → mark_at self.new y ≡ false }
    {
        self.rows.fill(false);
    }

    /// Whether a row is marked.
    pub fn get(&self, y: u16) -> bool
        requires { y < 2047 }
        ensures { result ≡ mark_at self.now y }
    {
        self.rows[usize::from(y)]
    }

    /// Takes the mark of a row away.
    pub fn unset(&mut self, y: u16)
        requires { y < 2047 }
        ensures { (other : ℕ) → mark_at self.new other ≡ (if other == y then false else mark_at self.old other) }
    {
        self.rows[usize::from(y)] = false;
    }

    /// Marks the row of a place.
    #[tactic(auto, using(crate::proofs::MarkLemmas::dot_row))]
    pub fn set_dot(&mut self, size: Size, x: u16, y: u16)
        requires { (x < size.width) × (y < 2047) }
        ensures { (colour : ℕ) → MarksMore self.old self.new size.width size.height (dot x y colour) }
    {
        self.set_span(usize::from(y), usize::from(y) + 1);
    }

    /// Marks the rows of a rectangle, if it has a column.
    #[tactic(auto, using(crate::proofs::MarkLemmas::fill_row, crate::proofs::MarkLemmas::fill_off))]
    pub fn set_fill(&mut self, size: Size, area: Area)
        requires across { area.left ≤ area.right × (area.right ≤ size.width) }
        requires down { area.top ≤ area.bottom × (area.bottom ≤ 2047) }
        ensures { (colour : ℕ) → MarksMore self.old self.new size.width size.height (fill area.left area.right area.top area.bottom colour) }
    {
        if area.left < area.right {
            self.set_span(usize::from(area.top), usize::from(area.bottom));
        }
    }

    /// Marks the rows of a tile that has a column on the screen.
    #[tactic(auto, using(crate::proofs::MarkLemmas::tile_row))]
    pub fn set_tile(&mut self, size: Size, place: Moved)
        requires height { size.height ≤ 2047 }
        requires column { (place.x < size.width) ⊎ (65528 < place.x) }
        requires width { 0 < size.width }
        ensures { (inks : ℕ → ℕ → Option ℕ) → MarksMore self.old self.new size.width size.height (tile place.x place.y inks) }
    {
        let from = usize::from(place.y);
        if from + 8 <= usize::from(size.height) {
            self.set_span(from, from + 8);
        } else {
            self.set_rows(place.y, size.height);
        }
    }

    // Marks rows from one up to another.
    #[tactic(auto, using(std::proofs::lemmas::List::take_at))]
    fn set_span(&mut self, top: usize, bottom: usize)
        requires { top ≤ bottom × (bottom ≤ 2047) }
        ensures { (y : ℕ) → mark_at self.new y ≡ ((nat_le top y && nat_lt y bottom) || mark_at self.old y) }
    {
        mark_span(&mut self.rows, top, bottom);
    }

    // Marks those of the eight rows from one on, which wrap, that lie above a height.
    #[inline(never)]
    fn set_rows(&mut self, y: u16, height: u16)
        requires { height ≤ 2047 }
        ensures { (row : ℕ) → row < height → mark_at self.new row ≡ (nat_lt (pixel_distance y row) 8 || mark_at self.old row) }
    {
        for row in 0..8 {
            let at = y.wrapping_add(row);
            if at < height {
                self.rows[usize::from(at)] = true;
            }
        }
    }
}

// Marks rows from one up to another.
fn mark_span(rows: &mut [bool], top: usize, bottom: usize)
    requires { top ≤ bottom × (bottom ≤ length rows.old) }
    ensures marks { (y : ℕ) → mark_at rows.new y ≡ ((nat_le top y && nat_lt y bottom) || mark_at rows.old y) }
    ensures length { length rows.new ≡ length rows.old }
{
    rows[top..bottom].fill(true);
}
