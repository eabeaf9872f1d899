//! What the words ask for: a task, none of whose outputs clashes with another file.
ghost use Rattle.std.specs.Prelude.{◌≡◌, map, string_bytes, IfOk};
ghost use Rattle.uxn_arguments.specs.Options.{HasBudget};
ghost use Rattle.uxn_arguments.specs.Places.{HasApartOutputs};
ghost use Rattle.uxn_cli.specs.Request.{apart};
ghost use Rattle.uxn_cli.specs.Request.{request};
ghost use Rattle.uxn_io_traits.specs.Inquires.{Says};

use super::refusal::Refusal;
use std::alloc::Global;
use uxn_arguments::{Task, WordFault, WordStop, read_words};
use uxn_io_traits::Halt;

/// A task whose outputs do not clash, or else the first one that does.
fn apart(alloc: Global, task: Task) -> Result<Task, Halt<Refusal>>
    ensures says { Says (λ found. found) (apart task) result }
    ensures apart { IfOk result HasApartOutputs }
    ensures same { IfOk result (λ found. found ≡ task) }
{
    match task.first_clash(alloc)? {
        Some(path) => Err(Halt::Refused(Refusal::NoOutput(path))),
        None => Ok(task),
    }
}

/// What the words ask for, unless they are not legal or name no path.
#[tactic(auto, unfolding(crate::specs::Request::request))]
pub fn request(alloc: Global, words: &[String]) -> Result<Task, Halt<Refusal>>
    ensures says { Says (λ task. task) (request (map string_bytes words.now)) result }
    ensures apart { IfOk result HasApartOutputs }
    ensures budget { IfOk result HasBudget }
{
    match read_words(alloc, words) {
        Ok(task) => apart(alloc, task),
        Err(WordStop::Refused(WordFault::NotUnderstood)) => {
            Err(Halt::Refused(Refusal::NotUnderstood))
        }
        Err(WordStop::Refused(WordFault::NoPath(word))) => {
            Err(Halt::Refused(Refusal::NoPath(word)))
        }
        Err(WordStop::NoMemory) => Err(Halt::NoMemory),
    }
}
