//! What a word of Uxntal means.

ghost use Rattle.std.specs.Prelude.{◌≡◌};
ghost use Rattle.tal_words.specs.Forms.{form, literal_form, reference, bare, unless_empty, if_alone};

use crate::digits::{address_value, byte_value, is_byte_number, is_short_number, short_value};
use crate::fault::FaultKind;
use crate::name::name_fault;
use crate::opcode::op_byte;
use crate::runes::rune_of;

/// What kind of reference a word is: what stands before the target, and how the target is held.
#[derive(Clone, Copy)]
pub enum Rune {
    /// `,name`: LIT and the distance as a byte.
    LitRel,
    /// `_name`: the distance as a byte.
    RawRel,
    /// `.name`: LIT and the low byte.
    LitZero,
    /// `-name`: the low byte.
    RawZero,
    /// `;name`: LIT2 and the address.
    LitAbs,
    /// `=name`: the address.
    RawAbs,
    /// `!name`: JMI and the distance as a short.
    Jmi,
    /// `?name`: JCI and the distance as a short.
    Jci,
    /// A bare name or `{`: JSI and the distance as a short.
    Jsi,
}

/// What a word means.
#[derive(Clone, Copy)]
pub enum Form {
    /// `|h`: the next word stands at h.
    Pad(u16),
    /// `$h`: leaves out h bytes.
    Skip(u16),
    /// `#hh`: LIT and the byte.
    Lit1(u8),
    /// `#hhhh`: LIT2 and the short.
    Lit2(u16),
    /// `hh`: the byte.
    Raw1(u8),
    /// `hhhh`: the short.
    Raw2(u16),
    /// An opcode word: its byte.
    Op(u8),
    /// `"text`: the bytes of the text.
    Text,
    /// `@name`: a label.
    LabelDef,
    /// `&name`: a label in the scope.
    SubDef,
    /// A reference to a name or to the end of a lambda.
    Refer(Rune),
    /// `}`: the end of a lambda.
    LambdaEnd,
    /// `[` or `]`: nothing.
    Ignored,
}

/// What a word means, or what is wrong with it: BadNumber, BadName, NoName or IncludeHere.
#[tactic(auto, unfolding(crate::specs::Forms::form))]
pub fn form_of(word: &[u8]) -> Result<Form, FaultKind>
    ensures { result ≡ form word.now }
{
    let Some((first, rest)) = word.split_first() else {
        return Ok(Form::Refer(Rune::Jsi));
    };
    match *first {
        b'|' => match address_value(rest) {
            Some(address) => Ok(Form::Pad(address)),
            None => Err(FaultKind::BadNumber),
        },
        b'$' => match address_value(rest) {
            Some(length) => Ok(Form::Skip(length)),
            None => Err(FaultKind::BadNumber),
        },
        b'#' => literal_form(rest),
        b'"' => Ok(Form::Text),
        b'@' => match name_fault(rest) {
            None => Ok(Form::LabelDef),
            Some(kind) => Err(kind),
        },
        b'&' => unless_empty(rest, Ok(Form::SubDef)),
        b'~' => unless_empty(rest, Err(FaultKind::IncludeHere)),
        b'/' => unless_empty(rest, Ok(Form::Refer(Rune::Jsi))),
        b'{' => if_alone(rest, Form::Refer(Rune::Jsi)),
        b'}' => if_alone(rest, Form::LambdaEnd),
        b'[' | b']' => if_alone(rest, Form::Ignored),
        byte => match rune_of(byte) {
            Some(rune) => reference(rune, rest),
            None => Ok(bare(word)),
        },
    }
}

/// The form of a word that must have more than its first character.
fn unless_empty(rest: &[u8], answer: Result<Form, FaultKind>) -> Result<Form, FaultKind>
    ensures { result ≡ unless_empty rest.now answer }
{
    if rest.is_empty() {
        Err(FaultKind::NoName)
    } else {
        answer
    }
}

/// The form of a word that must have its first character alone.
fn if_alone(rest: &[u8], form: Form) -> Result<Form, FaultKind>
    ensures { result ≡ if_alone rest.now form }
{
    if rest.is_empty() {
        Ok(form)
    } else {
        Err(FaultKind::BadName)
    }
}

/// What follows `#`: two or four digits.
fn literal_form(digits: &[u8]) -> Result<Form, FaultKind>
    ensures { result ≡ literal_form digits.now }
{
    if is_byte_number(digits) {
        Ok(Form::Lit1(byte_value(digits)))
    } else if is_short_number(digits) {
        Ok(Form::Lit2(short_value(digits)))
    } else {
        Err(FaultKind::BadNumber)
    }
}

/// What follows the rune of a reference: `&c`, `/c`, `{` alone, or a name.
fn reference(rune: Rune, name: &[u8]) -> Result<Form, FaultKind>
    ensures { result ≡ reference rune name.now }
{
    match name {
        [] => Err(FaultKind::NoName),
        [b'&' | b'/', rest @ ..] => unless_empty(rest, Ok(Form::Refer(rune))),
        [b'{', rest @ ..] => if_alone(rest, Form::Refer(rune)),
        [_, ..] => Ok(Form::Refer(rune)),
    }
}

/// A word without a rune: a number, an opcode word, or the name of a subroutine.
fn bare(word: &[u8]) -> Form
    ensures { result ≡ bare word.now }
{
    if is_byte_number(word) {
        return Form::Raw1(byte_value(word));
    }
    if is_short_number(word) {
        return Form::Raw2(short_value(word));
    }
    match op_byte(word) {
        Some(byte) => Form::Op(byte),
        None => Form::Refer(Rune::Jsi),
    }
}
