//! The source of a workload.
ghost use Rattle.std.specs.Prelude.{◌≡◌, ◌+◌, ◌*◌, ◌%◌, ◌++◌, IfOk, OnOk};
ghost use Rattle.uxn_cli.specs.WorkloadSource.{drawn_call, calls, routine, routines, workload_source};

use std::alloc::{AllocError, Global};
use uxn_io_traits::{append_pieces, decimal, hex_short};

/// The number after this one.
fn next_number(value: u16) -> u16
    ensures { result ≡ (25173 * value + 13849) % 65536 }
{
    value.wrapping_mul(25173).wrapping_add(13849)
}

/// Puts the line that calls a routine behind a text.
#[tactic(auto, unfolding(crate::specs::WorkloadSource::name_of))]
fn push_call(text: &mut Vec<u8>, i: u16) -> Result<(), AllocError>
    ensures { OnOk result (text.new.items ≡ text.old.items ++ drawn_call i) }
{
    append_pieces(text, &[b"w-", decimal(u64::from(i)).as_slice(), b"\n"])
}

/// Puts the line of a routine, which adds a number, behind a text.
#[tactic(auto, unfolding(crate::specs::WorkloadSource::name_of))]
fn push_routine(text: &mut Vec<u8>, i: u16, value: u16) -> Result<(), AllocError>
    ensures { OnOk result (text.new.items ≡ text.old.items ++ routine i value) }
{
    let name = decimal(u64::from(i));
    append_pieces(
        text,
        &[
            b"@w-",
            name.as_slice(),
            b" #",
            hex_short(value).as_slice(),
            b" ADD2 JMP2r\n",
        ],
    )
}

/// Puts the lines that call the first `count` routines behind a text.
#[tactic(auto, unfolding(crate::specs::WorkloadSource::calls))]
fn push_calls(text: &mut Vec<u8>, count: u16) -> Result<(), AllocError>
    ensures { OnOk result (text.new.items ≡ text.old.items ++ calls count) }
{
    for i in 0..count {
        push_call(text, i)?;
    }
    Ok(())
}

/// Puts the lines of all routines behind a text.
#[tactic(auto, unfolding(crate::specs::WorkloadSource::routines))]
fn push_routines(text: &mut Vec<u8>, count: u16) -> Result<(), AllocError>
    ensures { OnOk result (text.new.items ≡ text.old.items ++ routines count count) }
{
    let mut value = count;
    for i in 0..count {
        push_routine(text, i, value)?;
        value = next_number(value);
    }
    Ok(())
}

/// The source of a workload of `count` routines. Errors when out of memory.
#[tactic(auto, unfolding(crate::specs::WorkloadSource::workload_source))]
pub fn workload_source(alloc: Global, count: u16) -> Result<Vec<u8>, AllocError>
    ensures { IfOk result (λ text. text.items ≡ workload_source count) }
{
    let mut text = Vec::new(alloc);
    text.extend_from_slice(b"|0100 #0000\n")?;
    push_calls(&mut text, count)?;
    text.extend_from_slice(b"#18 DEO #18 DEO\n;tick #20 DEO2 BRK\n@tick #01 #2e DEO BRK\n")?;
    push_routines(&mut text, count)?;
    Ok(text)
}
