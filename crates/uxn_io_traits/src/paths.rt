//! Paths: texts of 1 to 16 components that name places beneath the current folder.
ghost use Rattle.std.specs.Prelude.{◌≡◌, ℕ, ◌-◌, ◌≤◌, ◌∷◌, ◌++◌, ◌&&◌, ◌↔◌, length, replicate, IsTrue, IfSome, Ok, None, MatchOption};
ghost use Rattle.std.specs.List.{list_all, list_any};
ghost use Rattle.std.specs.Str.{is_utf8};
ghost use Rattle.uxn_io_traits.specs.PathText.{path_of, components, is_component, is_bad_byte, is_too_long, joined};
ghost use Rattle.uxn_io_traits.specs.PathText.{parent_of, child_name, is_under, HasNoSlashFrom, IsLastSlash, ContinuesAfter};

use arrayvec::ArrayVec;
use std::marker::Model;

/// Why a text is not a path.
#[derive(Clone, Copy, Debug, PartialEq, Eq)]
pub enum PathFault {
    /// The text is empty.
    Empty,
    /// The text is not UTF-8, or a component is empty, `.` or `..`, or has a backslash, a byte below
    /// 20 or the byte 7f.
    BadComponent,
    /// There are more than 16 components or 255 bytes.
    TooLong,
}

const MOST_BYTES: usize = 255;

const MOST_COMPONENTS: usize = 16;

/// A path: 1 to 16 components, at most 255 bytes with the `/` between them. It is observed as its text.
#[derive(Clone, Copy, Debug, PartialEq, Eq)]
pub struct Path {
    bytes: [u8; 255],
    len: u8,
}

impl Model for Path {
    ghost use Rattle.std.specs.Prelude.{ℕ, ◌-◌, List, ◌++◌, length, take, replicate};
    ghost use Rattle.uxn_io_traits.specs.PathBytes.{IsPathBytes, length_again, bytes_again};

    ghost Value = { List ℕ };

    ghost view = { λ p. take p.len p.bytes };

    ghost invariant = { λ p. IsPathBytes p.bytes p.len };

    ghost inverse = { λ text. record { bytes = text ++ replicate (255 - length text) 0; len = length text } };

    ghost inverse_ok = { λ p h i. record { bytes = bytes_again p.bytes p.len h i; len = length_again p.bytes p.len h i } };
}

impl Path {
    /// The path whose text is given. Errors: `Empty` where the text is empty; else `BadComponent`
    /// where it is not UTF-8 or has a bad component; else `TooLong`.
    pub fn read(text: &[u8]) -> Result<Path, PathFault>
        ensures { result ≡ path_of text.now }
    {
        if text.is_empty() {
            return Err(PathFault::Empty);
        }
        if !is_well_formed(text) {
            return Err(PathFault::BadComponent);
        }
        if is_too_long(text) {
            return Err(PathFault::TooLong);
        }
        Ok(Path {
            bytes: padded(text),
            len: text.len() as u8,
        })
    }

    /// The text: the components in order, with one `/` between each two. `Path::read` takes it.
    pub fn bytes(&self) -> &[u8]
        ensures text { result.now ≡ self.now }
        ensures short { length self.now ≤ 255 }
        ensures path { path_of self.now ≡ Ok self.now }
    {
        &self.bytes[..self.len as usize]
    }

    /// The path `tail` beneath this one. None exactly where it would have more than 16 components or
    /// 255 bytes.
    pub fn join(&self, tail: &Path) -> Option<Path>
        ensures { result ≡ joined self.now tail.now }
    {
        let text = with_slash(self.bytes(), tail.bytes());
        Path::read(text.as_slice()).ok()
    }

    /// The path without its last component. None exactly where it has one component.
    pub fn parent(&self) -> Option<Path>
        ensures { result ≡ parent_of self.now }
    {
        let text = self.bytes();
        match last_slash(text) {
            Some(at) => Path::read(&text[..at]).ok(),
            None => None,
        }
    }

    /// The last component, where the others are this folder's. None exactly where the folder is not the
    /// parent.
    pub fn name_in(&self, folder: &Path) -> Option<Path>
        ensures name { result ≡ child_name folder.now self.now }
        ensures one { IfSome result (λ name. parent_of name ≡ None) }
    {
        let text = self.bytes();
        match last_slash(text) {
            Some(at) => {
                if &text[..at] == folder.bytes() {
                    Path::read(&text[at + 1..]).ok()
                } else {
                    None
                }
            }
            None => None,
        }
    }

    /// Whether this path lies beneath the other: the other's components are a proper prefix of its own.
    pub fn is_under(&self, other: &Path) -> bool
        ensures { result ≡ is_under self.now other.now }
    {
        continues_after(self.bytes(), other.bytes())
    }
}

/// Whether the text is UTF-8 and all between its slashes are components.
fn is_well_formed(text: &[u8]) -> bool
    ensures { result ≡ (is_utf8 text.now && list_all is_component (components text.now)) }
{
    is_text(text) && are_components(text)
}

/// Whether the text has too many components or too many bytes for a path.
fn is_too_long(text: &[u8]) -> bool
    ensures { result ≡ is_too_long text.now }
{
    count_components(text) > MOST_COMPONENTS || text.len() > MOST_BYTES
}

/// Whether the bytes are UTF-8.
fn is_text(bytes: &[u8]) -> bool
    ensures { result ≡ is_utf8 bytes.now }
{
    str::from_utf8(bytes).is_ok()
}

/// Whether what stands between slashes is a component of a path.
fn is_component(name: &[u8]) -> bool
    ensures { result ≡ is_component name.now }
{
    if name.is_empty() || name == b".".as_slice() || name == b"..".as_slice() {
        return false;
    }
    !has_bad_byte(name)
}

/// Whether some byte is one that no component has.
fn has_bad_byte(name: &[u8]) -> bool
    ensures { result ≡ list_any is_bad_byte name.now }
{
    name.iter().any(|byte| is_bad_byte(*byte))
}

/// Whether a component may not have the byte.
fn is_bad_byte(byte: u8) -> bool
    ensures { result ≡ is_bad_byte byte }
{
    byte < 32 || byte == b'\\' || byte == 127
}

/// Whether all between the slashes are components of a path.
fn are_components(text: &[u8]) -> bool
    ensures { result ≡ list_all is_component (components text.now) }
{
    text.split(|b| *b == b'/').all(is_component)
}

/// How many components the slashes part.
fn count_components(text: &[u8]) -> usize
    ensures { result ≡ length (components text.now) }
{
    text.split(|b| *b == b'/').count()
}

/// The text with zeros behind it.
fn padded(text: &[u8]) -> [u8; 255]
    requires { length text.now ≤ 255 }
    ensures { result ≡ text.now ++ replicate (255 - length text.now) 0 }
{
    let mut bytes = [0; 255];
    bytes[..text.len()].copy_from_slice(text);
    bytes
}

/// Both texts with a slash between.
fn with_slash(text: &[u8], tail: &[u8]) -> ArrayVec<u8, 511>
    requires text { length text.now ≤ 255 }
    requires tail { length tail.now ≤ 255 }
    ensures { result.items ≡ text.now ++ 47 ∷ tail.now }
{
    let mut whole = ArrayVec::new();
    let _ = whole.try_extend_from_slice(text);
    whole.push(b'/');
    let _ = whole.try_extend_from_slice(tail);
    whole
}

/// The place of the last slash.
fn last_slash(text: &[u8]) -> Option<usize>
    ensures { MatchOption result (HasNoSlashFrom text.now 0) (IsLastSlash text.now) }
{
    let mut end = text.len();
    while end > 0 {
        end -= 1;
        if text[end] == b'/' {
            return Some(end);
        }
    }
    None
}

/// Whether the text is the other one, a slash, and more.
fn continues_after(text: &[u8], other: &[u8]) -> bool
    ensures { IsTrue result ↔ ContinuesAfter text.now other.now }
{
    if text.len() <= other.len() || text[other.len()] != b'/' {
        return false;
    }
    text.starts_with(other)
}
