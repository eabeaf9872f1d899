//! What an Expander gives in turn, and how many words it visited.

use std::test::Fail;
use tal_macros::Expander;
use tal_words::{AsmStop, words};

/// What an Expander gives of a source in turn: a word, or none, and how many words were visited then.
static TURNS: [(Option<&str>, u32); 5] = [
    (Some("#04"), 1),
    (Some("DUP"), 4),
    (Some("ADD"), 5),
    (None, 6),
    (None, 6),
];

/// Whether an expander of a source gives its words in turn.
fn gives_in_turn(expander: &mut Expander, source: &[u8]) -> Result<bool, AsmStop> {
    for (text, visited) in &TURNS {
        let given = expander.next()?.map(|word| word.text.text(source));
        if given != text.map(|text| text.as_bytes()) || expander.visited() != *visited {
            return Ok(false);
        }
    }
    Ok(true)
}

#[test]
fn counts_uses_that_are_opened(rt: HostRuntime) -> Result<(), Fail> {
    let source = b"%none { } %dbl { DUP ADD } #04 none dbl none";
    let words = words(rt.alloc(), source)?;
    let mut expander = Expander::new(rt.alloc(), source, &words);
    assert!(rt; gives_in_turn(&mut expander, source)?);
    Ok(())
}
