//! The scope of names that begin with `&` or `/`.

ghost use Rattle.std.specs.Prelude.{◌≡◌, List, ℕ, Ok};
ghost use Rattle.tal_words.specs.Names.{first_scope};
ghost use Rattle.tal_words.specs.declared.form.Form.TheVariants.{LabelDef};
ghost use Rattle.tal_words.specs.Source.{bytes_at};
ghost use Rattle.tal_words.specs.Forms.{form as form_of_text};
ghost use Rattle.tal_labels.specs.Answers.{next_scope};
ghost use Rattle.tal_labels.specs.Scopes.{scope_text};

use crate::labels::{FIRST_SCOPE, scope_of};
use tal_words::{Form, Span};

/// A scope as a part of the source, or the scope before the first label.
#[derive(Clone, Copy)]
pub struct Scope {
    span: Option<Span>,
}

impl Scope {
    /// The scope before the first label.
    pub fn first() -> Scope
        ensures { (source : List ℕ) → scope_text source result ≡ first_scope }
    {
        Scope { span: None }
    }

    /// The name of the scope.
    pub fn text(self, source: &[u8]) -> &[u8]
        ensures { result.now ≡ scope_text source.now self }
    {
        match self.span {
            Some(span) => span.text(source),
            None => FIRST_SCOPE,
        }
    }

    /// The scope after a word of a form: a label opens one.
    pub fn after(self, source: &[u8], form: Form, word: Span) -> Scope
        requires { form_of_text (bytes_at source.now word) ≡ Ok form }
        ensures { scope_text source.now result ≡ next_scope form (scope_text source.now self) (bytes_at source.now word) }
    {
        match form {
            Form::LabelDef => Scope {
                span: Some(scope_span(source, word)),
            },
            _ => self,
        }
    }
}

/// The part of a label's word that is its scope.
fn scope_span(source: &[u8], word: Span) -> Span
    requires { form_of_text (bytes_at source.now word) ≡ Ok LabelDef }
    ensures { bytes_at source.now result ≡ next_scope LabelDef first_scope (bytes_at source.now word) }
{
    let (_, name) = word.text(source).split_at(1);
    let start = word.start + 1;
    Span {
        start,
        end: start + scope_of(name).len() as u32,
    }
}
