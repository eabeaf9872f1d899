//! Which bytes of bank 0 the coming instruction may change.

ghost use Rattle.std.specs.Prelude.{◌≡◌, ◌+◌, ◌%◌};
ghost use Rattle.uxn_opcodes.specs.declared.operation.Width.TheVariants.{Byte, Short};
ghost use Rattle.uxn_opcodes.specs.Words.{relative, size_of, word_below};
ghost use Rattle.varvara_bus.specs.Touched.{touched_by_word};
ghost use Rattle.uxn_undo.specs.Changes.{instruction_span, span_of_op, span_of_range};

use crate::span::Span;
use uxn_memory::Memory;
use uxn_opcodes::{Core, Mode, Op, StoreOp, Width};
use uxn_stacks::Ring;
use varvara_bus::touched;

// What the coming instruction may change, with the bytes that are stored in the ports.
#[tactic(auto, unfolding(crate::specs::Changes::instruction_span))]
pub(crate) fn instruction_span(core: &Core, page: &[u8; 256]) -> Span
    ensures { result ≡ instruction_span core.now page.now }
{
    let code = core.memory.get(core.at);
    let mode = Mode::of(code);
    let ring = if mode.returns {
        &core.returns
    } else {
        &core.working
    };
    span_of_op(Op::of(code), mode.width, core, ring, page)
}

// The same by its operation, which takes its operands from this stack.
#[tactic(auto, unfolding(uxn_opcodes::specs::Words::word_below))]
fn span_of_op(op: Option<Op>, width: Width, core: &Core, ring: &Ring, page: &[u8; 256]) -> Span
    ensures { result ≡ span_of_op op width core.now.memory ((core.now.at + 1) % 65536) ring.now page.now }
{
    match op {
        Some(Op::Store(StoreOp::Stz)) => Span::in_page(ring.peek1(0), size_of(width)),
        Some(Op::Store(StoreOp::Str)) => Span::in_bank(
            relative(core.at.wrapping_add(1), ring.peek1(0)),
            size_of(width),
        ),
        Some(Op::Store(StoreOp::Sta)) => Span::in_bank(ring.peek2(0), size_of(width)),
        Some(Op::Deo) => span_of_output(&core.memory, page, ring, width),
        _ => Span::none(),
    }
}

// How many bytes a word has.
fn size_of(width: Width) -> u16
    ensures { result ≡ size_of width }
{
    match width {
        Width::Byte => 1,
        Width::Short => 2,
    }
}

// The address at a signed byte from another.
#[tactic(auto, unfolding(uxn_opcodes::specs::Words::relative))]
fn relative(at: u16, offset: u8) -> u16
    ensures { result ≡ relative at offset }
{
    let at = at.wrapping_add(u16::from(offset));
    if offset < 128 {
        at
    } else {
        at.wrapping_sub(256)
    }
}

// What an instruction that writes a port may change.
#[tactic(auto, unfolding(uxn_opcodes::specs::Words::word_below))]
fn span_of_output(memory: &Memory, page: &[u8; 256], ring: &Ring, width: Width) -> Span
    ensures { result ≡ span_of_range (touched_by_word memory.now page.now width (word_below ring.now Byte 0) (word_below ring.now width 1)) }
{
    let value = match width {
        Width::Byte => u16::from(ring.peek1(1)),
        Width::Short => ring.peek2(1),
    };
    Span::of_range(touched(memory, page, width, ring.peek1(0), value))
}
