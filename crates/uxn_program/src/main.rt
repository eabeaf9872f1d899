//! The program: the words of the command line, the real files and streams, and the one call that does
//! the work.
#![tactic(auto)]

mod words;

use std::process::ExitCode;
use uxn_cli::uxn;
use uxn_io_host::{CurrentFolder, Stream};
use words::{refuse_words, words_of};

fn main(rt: HostRuntime) -> ExitCode {
    let mut out = Stream::new(rt.stdout());
    let mut err = Stream::new(rt.stderr());
    let mut tree = CurrentFolder::new(&rt);
    ExitCode::from(match words_of(&rt) {
        Ok(words) => uxn(rt.alloc(), &words, &mut tree, &mut out, &mut err),
        Err(stop) => refuse_words(&mut err, stop),
    })
}
