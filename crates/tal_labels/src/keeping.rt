//! Bytes of names, which are kept without the scopes that they share.

ghost use Rattle.std.specs.Prelude.{◌≡◌, ◌<◌, ◌≤◌, ◌+◌, ◌^◌, ◌++◌, ℕ, List, length, IfOk, is_ok, if◌then◌else◌};
ghost use Rattle.std.specs.Str.{bytes_eq};
ghost use Rattle.tal_labels.specs.NameTables.{name_in, IsAdded, Grows};

use crate::kept::Kept;
use crate::labels::{SLASH, scope_of};
use std::alloc::AllocError;
use tal_words::Span;

/// Appends bytes, and gives where they stand.
fn append(bytes: &mut Vec<u8>, more: &[u8]) -> Result<Span, AllocError>
    ensures items { bytes.new.items ≡ (if is_ok result then bytes.old.items ++ more.now else bytes.old.items) }
    ensures start { IfOk result (λ span. span.start ≡ length bytes.old.items) }
    ensures end { IfOk result (λ span. span.end ≡ length bytes.new.items) }
{
    let start = bytes.len();
    if start.saturating_add(more.len()) > u32::MAX as usize {
        return Err(AllocError);
    }
    bytes.extend_from_slice(more)?;
    Ok(Span {
        start: start as u32,
        end: bytes.len() as u32,
    })
}

/// The number of bytes of a name's scope.
fn scope_length(name: &[u8]) -> usize
    ensures { result ≤ length name.now }
{
    scope_of(name).len()
}

/// Keeps a name that begins with a scope: its bytes behind the scope.
fn keep_rest(bytes: &mut Vec<u8>, scope: Span, rest: &[u8]) -> Result<(Kept, Span), AllocError>
    requires { scope.end ≤ length bytes.old.items }
    ensures ok { IfOk result (λ parts. IsAdded bytes.new.items (name_in bytes.old.items (record { shared = scope; rest = record { start = 0; end = 0 } }) ++ rest.now) parts.0 parts.1) }
    ensures grows { Grows bytes.old.items bytes.new.items }
{
    let rest = append(bytes, rest)?;
    let kept = Kept {
        shared: scope,
        rest,
    };
    Ok((kept, scope))
}

/// Keeps a name with all of its bytes and a slash. Its scope is then the one that later names may share.
fn keep_whole(bytes: &mut Vec<u8>, name: &[u8]) -> Result<(Kept, Span), AllocError>
    ensures ok { IfOk result (λ parts. IsAdded bytes.new.items name.now parts.0 parts.1) }
    ensures grows { Grows bytes.old.items bytes.new.items }
{
    let rest = append(bytes, name)?;
    let slash = append(bytes, &[SLASH])?;
    let scope = Span {
        start: rest.start,
        end: (rest.start as usize + scope_length(name) + 1).min(slash.end as usize) as u32,
    };
    let kept = Kept {
        shared: Span { start: 0, end: 0 },
        rest,
    };
    Ok((kept, scope))
}

/// Keeps a name behind others. It shares the last scope where it begins with it.
pub fn keep(bytes: &mut Vec<u8>, scope: Span, name: &[u8]) -> Result<(Kept, Span), AllocError>
    requires { scope.end ≤ length bytes.old.items }
    ensures ok { IfOk result (λ parts. IsAdded bytes.new.items name.now parts.0 parts.1) }
    ensures grows { Grows bytes.old.items bytes.new.items }
{
    if scope.end == 0 {
        return keep_whole(bytes, name);
    }
    match name.strip_prefix(scope.text(bytes.as_slice())) {
        Some(rest) => keep_rest(bytes, scope, rest),
        None => keep_whole(bytes, name),
    }
}

/// Whether a name is the one that is kept here.
pub fn is_kept(bytes: &[u8], kept: Kept, name: &[u8]) -> bool
    ensures { result ≡ bytes_eq name.now (name_in bytes.now kept) }
{
    match name.strip_suffix(kept.rest.text(bytes)) {
        Some(front) => front == kept.shared.text(bytes),
        None => false,
    }
}
