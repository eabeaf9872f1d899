//! Sinks and trees in memory, which fail on demand; paths and numbers; whole files; and an outside that is not there.

use std::alloc::Global;
use std::process::Abort;
use std::test::Fail;
use uxn_io::{
    Bytes, Entry, Failed, FileBytes, Kind, MemSink, MemTree, NamesStop, NoSink, NoTree, Node, Path,
    PathFault, ReadStop, Sink, Tree, TreeCall, append_all, decimal, hex_byte, hex_short, put_all,
    read_file,
};

/// Texts, each with the fault of reading it as a path, if it has one.
static TEXTS: [(&[u8], Option<PathFault>); 19] = [
    (b"a.tal", None),
    (b"...", None),
    (b".a/b..", None),
    (b"\xc3\xa9/\xe2\x82\xac ~", None),
    (b"a/b/c/d/e/f/g/h/i/j/k/l/m/n/o/p", None),
    (&[b'a'; 255], None),
    (b"", Some(PathFault::Empty)),
    (b"/a", Some(PathFault::BadComponent)),
    (b"a/", Some(PathFault::BadComponent)),
    (b"a//b", Some(PathFault::BadComponent)),
    (b"a/./b", Some(PathFault::BadComponent)),
    (b"../x.tal", Some(PathFault::BadComponent)),
    (b"a\\b", Some(PathFault::BadComponent)),
    (b"a\x1fb", Some(PathFault::BadComponent)),
    (b"\x7f", Some(PathFault::BadComponent)),
    (b"\xc0\xaf", Some(PathFault::BadComponent)),
    (
        b"a/b/c/d/e/f/g/h/i/j/k/l/m/n/o/p/q",
        Some(PathFault::TooLong),
    ),
    (&[b'a'; 256], Some(PathFault::TooLong)),
    (&[b'/'; 256], Some(PathFault::BadComponent)),
];

/// Says whether a text is read as a path of just its bytes, or gives this fault.
fn reads_as(text: &[u8], fault: Option<PathFault>) -> bool {
    match Path::read(text) {
        Ok(path) => fault.is_none() && path.bytes() == text,
        Err(found) => fault == Some(found),
    }
}

#[test]
fn reads_paths_up_to_their_limits(rt: HostRuntime) {
    for (text, fault) in &TEXTS {
        assert!(rt; reads_as(text, *fault), "at {text:?}");
    }
}

/// Says whether the path that was found has this text; no text represents no path.
fn has_text(found: Option<Path>, text: &[u8]) -> bool {
    match found {
        Some(path) => path.bytes() == text,
        None => text.is_empty(),
    }
}

/// Paths, each with another, the path that they join to, and whether the first is under the other.
static PAIRS: [(&[u8], &[u8], &[u8], bool); 6] = [
    (b"a/b", b"c", b"a/b/c", false),
    (b"a/b/c/d/e/f/g/h", b"1/2/3/4/5/6/7/8/9", b"", false),
    (b"a/b/c", b"a", b"a/b/c/a", true),
    (b"a", b"a", b"a/a", false),
    (b"ab/c", b"a", b"ab/c/a", false),
    (b"a", b"a/b", b"a/a/b", false),
];

/// Says whether two paths join so, and whether the first is under the other so.
fn pair_up(one: &[u8], other: &[u8], joined: &[u8], under: bool) -> Result<bool, PathFault> {
    let (one, other) = (Path::read(one)?, Path::read(other)?);
    Ok(has_text(one.join(&other), joined) && one.is_under(&other) == under)
}

/// Says whether a path has this parent, or none.
fn has_parent(text: &[u8], parent: &[u8]) -> Result<bool, PathFault> {
    Ok(has_text(Path::read(text)?.parent(), parent))
}

#[test]
fn joins_and_parts_paths(rt: HostRuntime) {
    for (one, other, joined, under) in &PAIRS {
        assert!(rt;
            pair_up(one, other, joined, *under) == Ok(true),
            "{one:?}, {other:?}"
        );
    }
    assert!(rt; has_parent(b"a/b/c", b"a/b") == Ok(true));
    assert!(rt; has_parent(b"a.tal", b"") == Ok(true));
}

/// Numbers, each with its decimal digits.
static NUMBERS: [(u64, &[u8]); 3] = [
    (0, b"0"),
    (1024, b"1024"),
    (u64::MAX, b"18446744073709551615"),
];

#[test]
fn prints_numbers(rt: HostRuntime) {
    assert!(rt; hex_byte(0xa4) == *b"a4");
    assert!(rt; hex_short(0x0b0f) == *b"0b0f");
    for (value, text) in &NUMBERS {
        assert!(rt; decimal(*value).as_slice() == *text, "at {value}");
    }
}

/// Pieces that are put one after the other, each with the answer.
static PUTS: [(&[u8], Result<usize, Failed>); 5] = [
    (b"ab", Ok(2)),
    (b"cd", Err(Failed)),
    (b"cdef", Ok(3)),
    (b"", Err(Failed)),
    (b"", Ok(0)),
];

#[test]
fn sinks_take_what_fits_and_fail_by_number(rt: HostRuntime) -> Result<(), Fail> {
    let mut sink = MemSink::new(rt.alloc(), 5, &[1, 3])?;
    for (piece, answer) in &PUTS {
        assert!(rt; sink.put(piece) == *answer, "at {piece:?}");
    }
    assert!(rt; put_all(&mut sink, b"f") == Err(Failed));
    assert!(rt; sink.bytes() == b"abcde".as_slice());
    Ok(())
}

/// The nodes at these paths, each with whether it is a folder, and its bytes.
fn nodes(alloc: Global, rows: &[(&[u8], bool, &[u8])]) -> Result<Vec<(Path, Node)>, Fail> {
    let mut nodes = Vec::new(alloc);
    for (text, folder, bytes) in rows {
        let bytes = Bytes::new(alloc, bytes)?;
        let folder = *folder;
        nodes.push((Path::read(text)?, Node { folder, bytes }))?;
    }
    Ok(nodes)
}

/// A file `a`, and a folder `d` with a file `d/z` in it.
static NODES: [(&[u8], bool, &[u8]); 3] = [
    (b"d/z", false, b""),
    (b"d", true, b""),
    (b"a", false, b"hello"),
];

/// What a tree is asked, with the answer.
enum Call<'a> {
    Kind(Result<Kind, Failed>),
    /// A read of four bytes from a place on, and what they are then.
    Read(u64, Result<usize, Failed>, [u8; 4]),
    Create(Result<bool, Failed>),
    Append(&'a [u8], Result<usize, Failed>),
    AppendWhole(&'a [u8], Result<(), Failed>),
    Remove(Result<bool, Failed>),
    /// The names in a folder, and whether they are just these.
    Names(&'a [(&'a [u8], Kind)], Result<bool, NamesStop>),
    /// A file read up to a limit: its length, or its length in place of its bytes.
    ReadFile(u32, Result<Result<u64, u64>, ReadStop>),
    /// The bytes of the node, without a call.
    Holds(Option<&'a [u8]>),
}

/// Appends to a file.
#[tactic(auto, using(uxn_io_traits::specs::KindLaws::known_file))]
fn append<T: Tree>(tree: &mut T, path: &Path, piece: &[u8]) -> Result<usize, Failed> {
    match tree.kind(path)? {
        Kind::File(_) => tree.append(path, piece),
        Kind::Missing | Kind::Folder => Err(Failed),
    }
}

/// Appends all of a piece to a file.
#[tactic(auto, using(uxn_io_traits::specs::KindLaws::known_file))]
fn append_whole<T: Tree>(tree: &mut T, path: &Path, piece: &[u8]) -> Result<(), Failed> {
    match tree.kind(path)? {
        Kind::File(_) => append_all(tree, path, piece),
        Kind::Missing | Kind::Folder => Err(Failed),
    }
}

/// Lists a folder.
#[tactic(auto, using(uxn_io_traits::specs::KindLaws::known_folder))]
fn names<T: Tree>(alloc: Global, tree: &mut T, path: &Path) -> Result<Vec<Entry>, NamesStop> {
    match tree.kind(path) {
        Ok(Kind::Folder) => tree.names(alloc, path),
        _ => Err(NamesStop::NoMemory),
    }
}

/// Says whether a folder has just these children.
fn lists(
    alloc: Global,
    tree: &mut MemTree,
    folder: &Path,
    children: &[(&[u8], Kind)],
) -> Result<bool, NamesStop> {
    let found = names(alloc, tree, folder)?;
    let mut same = found.len() == children.len();
    for (entry, (name, kind)) in found.iter().zip(children.iter()) {
        same = same && entry.name.bytes() == *name && entry.kind == *kind;
    }
    Ok(same)
}

/// Says whether a read of four bytes answers so, and leaves these bytes.
fn reads(
    tree: &mut MemTree,
    path: &Path,
    from: u64,
    answer: &Result<usize, Failed>,
    bytes: &[u8; 4],
) -> bool {
    let mut into = *b"....";
    tree.read(path, from, &mut into) == *answer && into == *bytes
}

/// The length of a file that was found, or its length in place of it.
fn length_of(read: Result<FileBytes, ReadStop>) -> Result<Result<u64, u64>, ReadStop> {
    match read? {
        FileBytes::Found(bytes) => Ok(Ok(bytes.as_slice().len() as u64)),
        FileBytes::Missing => Ok(Ok(0)),
        FileBytes::TooLong(length) => Ok(Err(length)),
    }
}

/// Says whether a tree has a node with these bytes, or none.
fn holds(tree: &MemTree, path: &Path, bytes: Option<&[u8]>) -> bool {
    match tree.node(path) {
        Some(node) => bytes == Some(node.bytes.as_slice()),
        None => bytes.is_none(),
    }
}

/// Says whether a tree answers a call at a path so.
fn answers(
    alloc: Global,
    tree: &mut MemTree,
    text: &[u8],
    call: &Call<'_>,
) -> Result<bool, PathFault> {
    let path = Path::read(text)?;
    Ok(match call {
        Call::Kind(answer) => tree.kind(&path) == *answer,
        Call::Read(from, answer, bytes) => reads(tree, &path, *from, answer, bytes),
        Call::Create(answer) => tree.create(&path) == *answer,
        Call::Append(piece, answer) => append(tree, &path, piece) == *answer,
        Call::AppendWhole(piece, answer) => append_whole(tree, &path, piece) == *answer,
        Call::Remove(answer) => tree.remove(&path) == *answer,
        Call::Names(children, answer) => lists(alloc, tree, &path, children) == *answer,
        Call::ReadFile(limit, answer) => length_of(read_file(alloc, tree, &path, *limit))
            == *answer,
        Call::Holds(bytes) => holds(tree, &path, *bytes),
    })
}

/// Makes a tree of these nodes, with places for two files more, room for so many bytes in each, and calls
/// that fail, and then makes calls of it, one after the other.
fn ask(
    rt: &impl Abort,
    alloc: Global,
    rows: &[(&[u8], bool, &[u8])],
    room: usize,
    fails: &[(TreeCall, u32)],
    calls: &[(&[u8], Call<'_>)],
) -> Result<(), Fail> {
    let nodes = nodes(alloc, rows)?;
    assert!(rt; MemTree::can_hold(&nodes, room));
    let mut tree = MemTree::new(alloc, &nodes, 2, room, fails)?;
    for (text, call) in calls {
        assert!(rt;
            answers(alloc, &mut tree, text, call) == Ok(true),
            "at {text:?}"
        );
    }
    Ok(())
}

/// Questions to a tree of `NODES`.
static QUESTIONS: [(&[u8], Call<'static>); 9] = [
    (b"d", Call::Kind(Ok(Kind::Folder))),
    (b"a/x", Call::Kind(Ok(Kind::Missing))),
    (b"a", Call::Kind(Err(Failed))),
    (b"a", Call::Kind(Ok(Kind::File(5)))),
    (b"a", Call::Read(3, Ok(2), *b"lo..")),
    (b"a", Call::Read(0, Err(Failed), *b"....")),
    (b"a", Call::Read(5, Ok(0), *b"....")),
    (b"a", Call::Holds(Some(b"hello"))),
    (b"b", Call::Holds(None)),
];

#[test]
fn trees_tell_and_read_what_they_hold(rt: HostRuntime) -> Result<(), Fail> {
    let fails = [(TreeCall::Kind, 2), (TreeCall::Read, 1)];
    ask(&rt, rt.alloc(), &NODES, 5, &fails, &QUESTIONS)
}

/// Changes of a tree of `NODES`, and what it holds then.
static CHANGES: [(&[u8], Call<'static>); 19] = [
    (b"d", Call::Create(Ok(false))),
    (b"a/x", Call::Create(Ok(false))),
    (b"d/b", Call::Create(Ok(true))),
    (b"d/b", Call::AppendWhole(b"abc", Ok(()))),
    (b"d/b", Call::Append(b"def", Ok(2))),
    (b"d/b", Call::Append(b"f", Err(Failed))),
    (b"d/b", Call::Append(b"", Err(Failed))),
    (b"c", Call::Create(Ok(true))),
    (b"e", Call::Create(Err(Failed))),
    (b"a", Call::Create(Ok(true))),
    (b"a", Call::AppendWhole(b"abcdef", Err(Failed))),
    (b"a", Call::Holds(Some(b"abcde"))),
    (
        b"d",
        Call::Names(&[(b"b", Kind::File(5)), (b"z", Kind::File(0))], Ok(true)),
    ),
    (b"d", Call::Names(&[], Err(NamesStop::Failed))),
    (b"d", Call::Remove(Ok(false))),
    (b"d/b", Call::Remove(Err(Failed))),
    (b"d/b", Call::Remove(Ok(true))),
    (b"d/b", Call::Kind(Ok(Kind::Missing))),
    (b"e", Call::Create(Ok(true))),
];

#[test]
fn trees_change_within_their_room(rt: HostRuntime) -> Result<(), Fail> {
    let fails = [
        (TreeCall::Append, 3),
        (TreeCall::Remove, 1),
        (TreeCall::Names, 1),
    ];
    ask(&rt, rt.alloc(), &NODES, 5, &fails, &CHANGES)
}

/// Lists of nodes, each with the room of a file, that no tree can hold.
static UNSOUND: [(&[(&[u8], bool, &[u8])], usize); 5] = [
    (&[(b"a", false, b"ab")], 1),
    (&[(b"a/b", false, b"ab")], 2),
    (&[(b"a/b", false, b"ab"), (b"a", false, b"ab")], 2),
    (&[(b"a", false, b"ab"), (b"a", false, b"ab")], 2),
    (&[(b"a", true, b"x")], 2),
];

#[test]
fn trees_hold_only_sound_nodes(rt: HostRuntime) -> Result<(), Fail> {
    for (rows, room) in &UNSOUND {
        let nodes = nodes(rt.alloc(), rows)?;
        assert!(rt; !MemTree::can_hold(&nodes, *room));
    }
    Ok(())
}

/// A file `a` of 9000 bytes.
static LARGE: [(&[u8], bool, &[u8]); 1] = [(b"a", false, &[7; 9000])];

/// Reads of that file with a limit.
static LIMITS: [(&[u8], Call<'static>); 4] = [
    (b"a", Call::ReadFile(9000, Ok(Ok(9000)))),
    (b"a", Call::ReadFile(8999, Ok(Err(9000)))),
    (b"a", Call::ReadFile(9000, Err(ReadStop::Failed))),
    (b"a", Call::ReadFile(9000, Err(ReadStop::Failed))),
];

#[test]
fn whole_files_are_read_up_to_the_limit(rt: HostRuntime) -> Result<(), Fail> {
    let fails = [(TreeCall::Kind, 2), (TreeCall::Read, 4)];
    ask(&rt, rt.alloc(), &LARGE, 9000, &fails, &LIMITS)
}

/// A tree of unknown contents that says that files are short, and always has more bytes.
#[derive(Drop)]
struct Endless;

impl Tree for Endless {
    ghost use Rattle.std.specs.Prelude.{None};
    ghost use Rattle.uxn_io_traits.specs.Unknown.{unknown_tree};

    ghost state = { λ _. unknown_tree 0 (record { count = 0; last = None }) };

    fn kind(&mut self, _path: &Path) -> Result<Kind, Failed> {
        Ok(Kind::File(1))
    }

    fn read(&mut self, _path: &Path, _from: u64, into: &mut [u8]) -> Result<usize, Failed> {
        Ok(into.len())
    }

    fn create(&mut self, _path: &Path) -> Result<bool, Failed> {
        Ok(true)
    }

    fn append(&mut self, _path: &Path, piece: &[u8]) -> Result<usize, Failed> {
        Ok(piece.len())
    }

    fn remove(&mut self, _path: &Path) -> Result<bool, Failed> {
        Ok(true)
    }

    fn names(&mut self, alloc: Global, _folder: &Path) -> Result<Vec<Entry>, NamesStop> {
        Ok(Vec::new(alloc))
    }
}

#[test]
fn a_file_longer_than_it_was_said_is_too_long(rt: HostRuntime) -> Result<(), Fail> {
    let read = read_file(rt.alloc(), &mut Endless, &Path::read(b"a")?, 10000);
    assert!(rt; length_of(read) == Ok(Err(10001)));
    Ok(())
}

/// Says whether the calls of an outside that is not there answer so for a path and a piece.
fn is_not_there(path: &Path, piece: &[u8]) -> bool {
    let mut tree = NoTree;
    NoSink.put(piece) == Ok(piece.len())
        && tree.create(path) == Ok(false)
        && tree.append(path, piece) == Ok(piece.len())
        && tree.kind(path) == Ok(Kind::Missing)
        && tree.remove(path) == Ok(false)
}

#[test]
fn an_outside_that_is_not_there_takes_every_piece(rt: HostRuntime) -> Result<(), Fail> {
    assert!(rt; is_not_there(&Path::read(b"a/b")?, b"abc"));
    Ok(())
}
