//! The files of a task: its inputs are read one after the other and accepted, or it is refused; its outputs are made and written.

mod assembling;
mod commands;
mod disassembling;
mod inputs;
mod machines;
mod making;
mod outputs;
mod printing;
mod program;
mod refusal;
mod run_inputs;
mod scripts;
mod sources;
mod symbols;
mod tasks;

pub use assembling::{Written, assemble, write_outputs};
pub use disassembling::disassemble_rom;
pub use inputs::InputKind;
pub use machines::{LineInputs, read_machines};
pub use making::{empty_outputs, make_outputs};
pub use outputs::Output;
pub use printing::print;
pub use program::Program;
pub use refusal::{Halt, Refusal};
pub use run_inputs::{RunInputs, read_run};
pub use scripts::validate_script;
pub use tasks::request;
