//! What a patcher tells after each word that it is given, and whether a placer has a place for all words then.

ghost use Rattle.std.specs.Prelude.{◌≡◌, ◌<◌, IfOk, length, true};
ghost use Rattle.tal_rom.specs.Passing.{IsOnItsWay};

use std::alloc::Global;
use tal_labels::Placer;
use tal_macros::Expander;
use tal_rom::Patcher;
use tal_words::{AsmStop, words};

/// What a patcher tells: how many words wait, whether all fit, and its image without the zeros at the end.
type Known = (u32, bool, &'static [u8]);

/// Sources, each with what a patcher tells after each of its words, and whether it has no fault of its places: a reference
/// that waits for its label, one that cannot reach it, a lambda, and a lambda that stays open.
static PATCHED: [(&[u8], &[Known], bool); 4] = [
    (
        b";x @x INC",
        &[
            (1, true, b""),
            (0, true, &[0xa0, 0x01, 0x03]),
            (0, true, &[0xa0, 0x01, 0x03, 0x01]),
        ],
        true,
    ),
    (
        b",x $81 @x",
        &[(1, true, b""), (1, true, b""), (0, false, b"")],
        true,
    ),
    (
        b"?{ 03 }",
        &[
            (1, true, b""),
            (1, true, &[0, 0, 0, 0x03]),
            (0, true, &[0x20, 0x00, 0x01, 0x03]),
        ],
        true,
    ),
    (
        b"{ 03",
        &[(1, true, b""), (1, true, &[0, 0, 0, 0x03])],
        false,
    ),
];

/// Whether an image begins with these bytes and is 0 behind them.
fn shows(image: &[u8], bytes: &[u8]) -> bool {
    match image.strip_prefix(bytes) {
        Some(rest) => rest.iter().all(|byte| *byte == 0),
        None => false,
    }
}

/// Whether a patcher tells this now.
fn tells(patcher: &Patcher, (waiting, fits, bytes): &Known) -> bool {
    patcher.waiting() == *waiting && patcher.fits() == *fits && shows(patcher.image(), bytes)
}

/// Hands the next word of a source on to a patcher. Says whether there is one and it has its place.
fn hand_on(
    source: &[u8],
    expander: &mut Expander,
    placer: &mut Placer,
    patcher: &mut Patcher,
) -> Result<bool, AsmStop>
    requires short { length source.now < 4294967296 }
    requires so { IsOnItsWay source.now expander.old placer.old patcher.old }
    ensures { IfOk result (λ is_placed. is_placed ≡ true → IsOnItsWay source.now expander.new placer.new patcher.new) }
{
    if let Some(word) = expander.next()? {
        if let Some(placed) = placer.add(source, word)? {
            patcher.add(source, &placed)?;
            return Ok(true);
        }
    }
    Ok(false)
}

/// Whether a patcher tells this after each of the next words of a source.
fn tells_in_turn(
    source: &[u8],
    expander: &mut Expander,
    placer: &mut Placer,
    patcher: &mut Patcher,
    steps: &[Known],
) -> Result<bool, AsmStop>
    requires short { length source.now < 4294967296 }
    requires so { IsOnItsWay source.now expander.old placer.old patcher.old }
{
    for contents in steps {
        if !hand_on(source, expander, placer, patcher)? || !tells(patcher, contents) {
            return Ok(false);
        }
    }
    Ok(true)
}

/// Whether a patcher tells this after each of the first words of a source, and a placer then has no fault, as it is wanted.
fn is_patched(
    alloc: Global,
    source: &[u8],
    steps: &[Known],
    is_whole: bool,
) -> Result<bool, AsmStop> {
    let words = words(alloc, source)?;
    let mut expander = Expander::new(alloc, source, &words);
    let mut placer = Placer::new(alloc);
    let mut patcher = Patcher::new(alloc)?;
    let tells = tells_in_turn(source, &mut expander, &mut placer, &mut patcher, steps)?;
    Ok(tells && placer.finish().is_some() == is_whole)
}

#[test]
fn patchers_fill_each_reference_as_its_target_comes(rt: HostRuntime) {
    for (source, steps, is_whole) in &PATCHED {
        assert!(rt;
            matches!(is_patched(rt.alloc(), source, steps, *is_whole), Ok(true)),
            "at {source:?}"
        );
    }
}
