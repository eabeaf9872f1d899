//! The rows of a table of options, and the parser that reads words by it.
ghost use Rattle.std.specs.Prelude.{◌≡◌, ℕ, List, Some, IfOk, false};
ghost use Rattle.clap.specs.Words.{app_of, new_rule, rule_of};
ghost use Rattle.uxn_arguments.specs.Choices.{choice_of};
ghost use Rattle.uxn_arguments.specs.Parsing.{choice_argument, choice_in, parser_for, table_choices};

use clap::{Arg, ArgAction, Command};
use std::alloc::{AllocError, Global};

/// What an option is.
#[derive(Clone, Copy)]
pub(crate) enum ChoiceKind {
    /// One without a value, as `--name`.
    Switch,
    /// One with a value, as `--name value` or `--name=value`.
    Optional,
    /// One with a value that may not be missing.
    Required,
}

/// A row of a table: the name of an option, without the `--` before it, and what the option is.
pub(crate) type Choice = (&'static str, ChoiceKind);

/// What an argument of this kind does with its uses, and whether it has to be given.
fn uses_of(kind: ChoiceKind) -> (ArgAction, bool)
    ensures { (name : List ℕ) → choice_argument (choice_of name kind)
        ≡ record (new_rule name) { long = Some name; action = Some result.0; required = result.1 } }
{
    match kind {
        ChoiceKind::Switch => (ArgAction::SetTrue, false),
        ChoiceKind::Optional => (ArgAction::Set, false),
        ChoiceKind::Required => (ArgAction::Set, true),
    }
}

/// The argument of a parser.
fn argument<'a>(alloc: Global, choice: &Choice) -> Arg<'a>
    ensures rule { rule_of result ≡ choice_argument (choice_in choice.now) }
    ensures local { result.global ≡ false }
{
    let (name, kind) = *choice;
    let (action, required) = uses_of(kind);
    Arg::new(alloc, name)
        .long(name)
        .action(action)
        .required(required)
}

/// The parser of one operand and the options of a table.
pub(crate) fn parser<'a>(alloc: Global, table: &[Choice]) -> Result<Command<'a>, AllocError>
    ensures { IfOk result (λ parser. app_of parser ≡ parser_for (table_choices table.now)) }
{
    let operand = Arg::new(alloc, "").action(ArgAction::Set).required(true);
    let mut parser = Command::new(alloc, "")
        .no_binary_name(true)
        .disable_help_flag(true)
        .disable_version_flag(true)
        .arg(operand)?;
    for choice in table {
        parser = parser.arg(argument(alloc, choice))?;
    }
    Ok(parser)
}
