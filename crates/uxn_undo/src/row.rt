//! The stacks and the stored bytes of moments, in slots that are written again and again.

ghost use Rattle.std.specs.Prelude.{◌≡◌, ◌≢◌, ◌==◌, ◌+◌, ◌<◌, ◌≤◌, [], ◌∷◌, ◌++◌, ℕ, if◌then◌else◌, slice_index_or, vec_len, vec_capacity};
ghost use Rattle.uxn_undo.specs.Kept.{most_moments};
ghost use Rattle.uxn_undo.specs.Slots.{slot_row};

use uxn_opcodes::Core;
use uxn_stacks::Ring;

/// Both stacks of a moment, and the bytes that were stored in the ports.
#[derive(Clone, Copy)]
pub(crate) struct Row {
    pub(crate) working: Ring,
    pub(crate) returns: Ring,
    pub(crate) stored: [u8; 256],
}

impl Row {
    // Becomes that of a machine.
    #[inline(always)]
    fn set(&mut self, core: &Core, stored: &[u8; 256])
        ensures { self.new ≡ slot_row core.now stored.now }
    {
        self.working = core.working;
        self.returns = core.returns;
        self.stored = *stored;
    }
}

// Puts the row of a machine into a slot, or behind the last one.
pub(crate) fn put_row(rows: &mut Vec<Row>, slot: u16, core: &Core, stored: &[u8; 256])
    requires within { slot ≤ vec_len rows.old }
    requires room { most_moments ≤ vec_capacity rows.old }
    ensures here { (d : Row) → slice_index_or rows.new.items slot d ≡ slot_row core.now stored.now }
    ensures others { (k : ℕ) (d : Row) → k < vec_len rows.old → k ≢ slot → slice_index_or rows.new.items k d ≡ slice_index_or rows.old.items k d }
    ensures size { vec_len rows.new ≡ (if slot == vec_len rows.old then vec_len rows.old + 1 else vec_len rows.old) }
    ensures room { most_moments ≤ vec_capacity rows.new }
{
    let place = usize::from(slot);
    if place < rows.len() {
        rows[place].set(core, stored);
    } else {
        push_row(rows, core, stored);
    }
}

// Puts the row of a machine behind the last one.
#[inline(never)]
fn push_row(rows: &mut Vec<Row>, core: &Core, stored: &[u8; 256])
    requires { vec_len rows.old < vec_capacity rows.old }
    ensures items { rows.new.items ≡ rows.old.items ++ slot_row core.now stored.now ∷ [] }
    ensures size { vec_len rows.new ≡ vec_len rows.old + 1 }
    ensures room { vec_capacity rows.old ≤ vec_capacity rows.new }
{
    let pushed = rows.push(Row {
        working: core.working,
        returns: core.returns,
        stored: *stored,
    });
    match pushed {
        Ok(()) => {}
        Err(_row) => unreachable!(),
    }
}
