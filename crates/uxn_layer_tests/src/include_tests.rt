//! What known files are spliced to, and the first faults on the way.

use std::alloc::{AllocError, Global};
use tal_include::{IncludeFault, IncludeKind, Origin, SpliceStop, Spliced, splice};
use tal_words::FaultKind;
use uxn_io::{Bytes, MemTree, Node, Path, TreeCall};

/// The files of the tree; one without bytes is a folder.
static FILES: [(&str, Option<&[u8]>); 7] = [
    ("b.tal", Some(b"LIT 41\n")),
    ("c.tal", Some(b"~b.tal BRK")),
    ("faulty.tal", Some(b"LIT\n)x")),
    ("number.tal", Some(b"LIT\n#123")),
    ("loop.tal", Some(b"~loop.tal")),
    ("src", None),
    ("src/in.tal", Some(b"~b.tal")),
];

/// A tree of these files, whose first call that tells what is there fails if it is asked to.
fn tree(alloc: Global, fails: bool) -> Result<Option<MemTree>, AllocError> {
    let mut nodes = Vec::new(alloc);
    for (name, bytes) in &FILES {
        if let Ok(path) = Path::read(name.as_bytes()) {
            let folder = bytes.is_none();
            let bytes = Bytes::new(alloc, bytes.unwrap_or(&[]))?;
            nodes.push((path, Node { folder, bytes }))?;
        }
    }
    if !MemTree::can_hold(&nodes, 16) {
        return Ok(None);
    }
    let failing = [(TreeCall::Kind, 0)];
    let calls = if fails { failing.as_slice() } else { &[] };
    Ok(Some(MemTree::new(alloc, &nodes, 0, 16, calls)?))
}

/// What a source at a path is spliced to, over the tree of these files.
fn spliced(alloc: Global, main: &str, source: &[u8]) -> Result<Option<Spliced>, SpliceStop> {
    match (tree(alloc, false)?, Path::read(main.as_bytes())) {
        (Some(mut tree), Ok(main)) => Ok(Some(splice(alloc, &mut tree, &main, source)?)),
        _ => Ok(None),
    }
}

/// Sources, each with its path, its flat text, and the last file that was read for it.
static SPLICED: [(&str, &[u8], &[u8], Option<&str>); 7] = [
    ("a.tal", b"01 02", b"01\n02\n", None),
    (
        "a.tal",
        b"~b.tal #18 DEO",
        b"LIT\n41\n#18\nDEO\n",
        Some("b.tal"),
    ),
    (
        "a.tal",
        b"~b.tal ~b.tal",
        b"LIT\n41\nLIT\n41\n",
        Some("b.tal"),
    ),
    (
        "a.tal",
        b"~c.tal DEO",
        b"LIT\n41\nBRK\nDEO\n",
        Some("b.tal"),
    ),
    ("a.tal", b"~src/in.tal", b"LIT\n41\n", Some("b.tal")),
    (
        "a.tal",
        b"( ~none.tal ) ~ ~number.tal",
        b"~\nLIT\n#123\n",
        Some("number.tal"),
    ),
    (
        "a.tal",
        b"%m { ~b.tal }",
        b"%m\n{\nLIT\n41\n}\n",
        Some("b.tal"),
    ),
];

/// Says whether a source is spliced to this text, with this file the last that was read.
fn is_spliced(alloc: Global, main: &str, source: &[u8], text: &[u8], last: Option<&str>) -> bool {
    match spliced(alloc, main, source) {
        Ok(Some(flat)) => {
            let read = flat.paths().last().map(|path| path.bytes());
            flat.text() == text && read == last.map(|name| name.as_bytes())
        }
        _ => false,
    }
}

#[test]
fn sources_are_spliced(rt: HostRuntime) {
    for (main, source, text, last) in &SPLICED {
        assert!(rt; is_spliced(rt.alloc(), main, source, text, *last));
    }
}

/// The file, line and column of a fault, what it is, and its word.
#[derive(Drop)]
struct Wanted {
    path: &'static str,
    place: (u32, u32),
    kind: IncludeKind,
    word: &'static [u8],
}

/// Sources, each with its path and the first fault.
static REFUSED: [(&str, &[u8], Wanted); 9] = [
    (
        "a.tal",
        b"01 )x",
        Wanted {
            path: "a.tal",
            place: (1, 4),
            kind: IncludeKind::Words(FaultKind::StrayParen),
            word: b")x",
        },
    ),
    (
        "a.tal",
        b"01\n~faulty.tal",
        Wanted {
            path: "faulty.tal",
            place: (2, 1),
            kind: IncludeKind::Words(FaultKind::StrayParen),
            word: b")x",
        },
    ),
    (
        "loop.tal",
        b"01 ~loop.tal",
        Wanted {
            path: "loop.tal",
            place: (1, 1),
            kind: IncludeKind::Deep,
            word: b"~loop.tal",
        },
    ),
    (
        "src/a.tal",
        b"~in.tal",
        Wanted {
            path: "src/in.tal",
            place: (1, 1),
            kind: IncludeKind::Missing,
            word: b"~b.tal",
        },
    ),
    (
        "src/a.tal",
        b"~c.tal",
        Wanted {
            path: "src/a.tal",
            place: (1, 1),
            kind: IncludeKind::Missing,
            word: b"~c.tal",
        },
    ),
    (
        "a.tal",
        b"~../b",
        Wanted {
            path: "a.tal",
            place: (1, 1),
            kind: IncludeKind::BadPath,
            word: b"~../b",
        },
    ),
    (
        "a.tal",
        b"\n ~none.tal ~../b",
        Wanted {
            path: "a.tal",
            place: (2, 2),
            kind: IncludeKind::Missing,
            word: b"~none.tal",
        },
    ),
    (
        "a.tal",
        b"~../b ~none.tal",
        Wanted {
            path: "a.tal",
            place: (1, 1),
            kind: IncludeKind::BadPath,
            word: b"~../b",
        },
    ),
    (
        "a.tal",
        b"~src",
        Wanted {
            path: "a.tal",
            place: (1, 1),
            kind: IncludeKind::Missing,
            word: b"~src",
        },
    ),
];

/// Says whether a place is the line and the column of the file at a path.
fn is_at(origin: &Origin, path: &str, place: (u32, u32)) -> bool {
    origin.path.bytes() == path.as_bytes() && (origin.line, origin.column) == place
}

/// Says whether a fault is as it has to be.
fn is_fault(fault: &IncludeFault, wanted: &Wanted) -> bool {
    is_at(&fault.origin, wanted.path, wanted.place)
        && fault.kind == wanted.kind
        && fault.word.as_slice() == wanted.word
}

/// Says whether a source is refused with this fault.
fn is_refused(alloc: Global, main: &str, source: &[u8], wanted: &Wanted) -> bool {
    let answer = spliced(alloc, main, source);
    if let Err(SpliceStop::Refused(fault)) = &answer {
        is_fault(fault, wanted)
    } else {
        false
    }
}

#[test]
fn the_first_fault_is_met(rt: HostRuntime) {
    for (main, source, wanted) in &REFUSED {
        assert!(rt; is_refused(rt.alloc(), main, source, wanted));
    }
}

/// Offsets of the flat text of `~b.tal #18 DEO`, each with the file, the line and the column of its word.
static ORIGINS: [(u32, Option<(&str, (u32, u32))>); 6] = [
    (0, Some(("b.tal", (1, 1)))),
    (1, None),
    (4, Some(("b.tal", (1, 5)))),
    (7, Some(("a.tal", (1, 8)))),
    (11, Some(("a.tal", (1, 12)))),
    (15, None),
];

/// Says whether a word stands there, or none, as it is wanted.
fn is_origin(flat: &Spliced, at: u32, wanted: Option<(&str, (u32, u32))>) -> bool {
    match (flat.origin(at), wanted) {
        (Some(origin), Some((path, place))) => is_at(&origin, path, place),
        (None, None) => true,
        _ => false,
    }
}

#[test]
fn words_know_their_files(rt: HostRuntime) {
    if let Ok(Some(flat)) = spliced(rt.alloc(), "a.tal", b"~b.tal #18 DEO") {
        for (at, wanted) in &ORIGINS {
            assert!(rt; is_origin(&flat, *at, *wanted));
        }
    } else {
        assert!(rt; false);
    }
}

/// Whether so many includes of a file are one too many, at this column.
fn are_many(alloc: Global, count: usize, column: u32) -> Result<bool, AllocError> {
    let mut source = Vec::new(alloc);
    for _i in 0..count {
        source.extend_from_slice(b"~b.tal ")?;
    }
    let wanted = Wanted {
        path: "a.tal",
        place: (1, column),
        kind: IncludeKind::Many,
        word: b"~b.tal",
    };
    Ok(is_refused(alloc, "a.tal", &source, &wanted))
}

#[test]
fn files_are_counted(rt: HostRuntime) {
    assert!(rt; are_many(rt.alloc(), 256, 1786) == Ok(false));
    assert!(rt; are_many(rt.alloc(), 257, 1793) == Ok(true));
}

/// Whether a tree that fails stops the walk.
fn is_failing(alloc: Global) -> Result<bool, AllocError> {
    match (tree(alloc, true)?, Path::read(b"a.tal")) {
        (Some(mut tree), Ok(main)) => Ok(matches!(
            splice(alloc, &mut tree, &main, b"~b.tal"),
            Err(SpliceStop::TreeFault)
        )),
        _ => Ok(false),
    }
}

#[test]
fn a_tree_that_fails_is_known(rt: HostRuntime) {
    assert!(rt; is_failing(rt.alloc()) == Ok(true));
}

/// So many bytes, words of one letter with a blank behind each.
fn letters(alloc: Global, size: usize) -> Result<Vec<u8>, AllocError> {
    let mut bytes = Vec::new(alloc);
    for at in 0..size {
        bytes.push(if at % 2 == 0 { b'a' } else { b' ' })?;
    }
    Ok(bytes)
}

/// The fault of a source at `a.tal` over a tree, or None where it is spliced to so many bytes.
fn fault_of(alloc: Global, tree: &mut MemTree, source: &[u8], size: usize) -> Option<IncludeKind> {
    let Ok(main) = Path::read(b"a.tal") else {
        return Some(IncludeKind::BadPath);
    };
    match splice(alloc, tree, &main, source) {
        Ok(flat) if flat.text().len() == size => None,
        Err(SpliceStop::Refused(fault)) => Some(fault.kind),
        _ => Some(IncludeKind::BadPath),
    }
}

/// Over a tree with a file of so many bytes: the fault of a source, or None where it is spliced to these bytes alone.
fn fault_over(
    alloc: Global,
    size: usize,
    source: &[u8],
) -> Result<Option<IncludeKind>, AllocError> {
    let mut nodes = Vec::new(alloc);
    if let Ok(path) = Path::read(b"large.tal") {
        let bytes = Bytes::from(letters(alloc, size)?);
        let folder = false;
        nodes.push((path, Node { folder, bytes }))?;
    }
    if !MemTree::can_hold(&nodes, size) {
        return Ok(Some(IncludeKind::BadPath));
    }
    let mut tree = MemTree::new(alloc, &nodes, 0, size, &[])?;
    Ok(fault_of(alloc, &mut tree, source, size))
}

#[test]
fn large_files_are_met(rt: HostRuntime) {
    let alloc = rt.alloc();
    assert!(rt; fault_over(alloc, 4_194_304, b"~large.tal") == Ok(None));
    assert!(rt; fault_over(alloc, 4_194_304, b"~large.tal b") == Ok(Some(IncludeKind::LongFlat)));
    assert!(rt; fault_over(alloc, 4_194_305, b"~large.tal") == Ok(Some(IncludeKind::Long)));
}
