//! Names of labels and macros.

ghost use Rattle.std.specs.Prelude.{◌≡◌, IfOk, List, ℕ};
ghost use Rattle.tal_words.specs.Names.{name_fault, reserved};
ghost use Rattle.tal_words.specs.Opcodes.{has};

use crate::digits::{is_byte_number, is_short_number};
use crate::fault::FaultKind;
use crate::opcode::op_byte;
use std::alloc::{AllocError, Global};
use std::marker::Model;

/// A name, which is a list of bytes.
#[derive(Drop)]
pub struct Name {
    text: Vec<u8>,
}

impl Model for Name {
    ghost Value = { List ℕ };

    ghost view = { λ name. name.text.items };
}

impl Name {
    /// A name of these bytes, which are copied.
    pub fn new(alloc: Global, bytes: &[u8]) -> Result<Name, AllocError>
        ensures { IfOk result (λ name. name ≡ bytes.now) }
    {
        let text = Vec::from_slice(alloc, bytes)?;
        Ok(Name { text })
    }

    /// The vector of the bytes, which are not copied.
    pub fn into_vec(self) -> Vec<u8>
        ensures { result.items ≡ self }
    {
        self.text
    }

    /// The bytes of the name.
    pub fn bytes(&self) -> &[u8]
        ensures { result.now ≡ self.now }
    {
        self.text.as_slice()
    }
}

/// A label: its full name, and the address that it names.
#[derive(Drop)]
pub struct Label {
    pub name: Name,
    pub address: u16,
}

/// What is wrong with the name after `@` or `%`: it is empty (NoName), or it begins with a reserved
/// character, is an opcode word, or is two or four digits (BadName).
#[tactic(auto, unfolding(crate::specs::Names::name_fault))]
pub fn name_fault(name: &[u8]) -> Option<FaultKind>
    ensures { result ≡ name_fault name.now }
{
    let Some(first) = name.first() else {
        return Some(FaultKind::NoName);
    };
    if is_reserved(*first)
        || op_byte(name).is_some()
        || is_byte_number(name)
        || is_short_number(name)
    {
        Some(FaultKind::BadName)
    } else {
        None
    }
}

/// Whether no name begins with a byte.
fn is_reserved(byte: u8) -> bool
    ensures { result ≡ has byte reserved }
{
    b"\"|$#@&,_.-;=!?%~()[]{}/".contains(&byte)
}
