//! The report of a run.
ghost use Rattle.std.specs.Prelude.{◌≡◌, ◌+◌, ◌≤◌, ◌++◌, length};
ghost use Rattle.arrayvec.specs.ArrayVec.{array_vec_len};
ghost use Rattle.uxn_cli.specs.RunJob.{common_lines, report_line, report_text};

use arrayvec::ArrayVec;
use text_lines::Version;
use uxn_io_traits::decimal;
use vector_loop::Tally;

/// Puts a line behind others: a word and a number.
fn push_line(text: &mut ArrayVec<u8, 256>, name: &[u8], count: u64)
    requires { array_vec_len text.old + length name.now + 22 ≤ 256 }
    ensures line { text.new.items ≡ text.old.items ++ report_line name.now count }
    ensures len { array_vec_len text.new ≤ array_vec_len text.old + length name.now + 22 }
{
    let _ = text.try_extend_from_slice(name);
    let _ = text.try_extend_from_slice(b" ");
    let _ = text.try_extend_from_slice(&decimal(count));
    let _ = text.try_extend_from_slice(b"\n");
}

/// The lines of both versions: the exit code and what was counted.
#[tactic(auto, unfolding(crate::specs::RunJob::common_lines))]
fn common_lines(exit: u8, tally: &Tally) -> ArrayVec<u8, 256>
    ensures lines { result.items ≡ common_lines exit tally.now }
    ensures len { array_vec_len result ≤ 198 }
{
    let mut text = ArrayVec::new();
    push_line(&mut text, b"exit", u64::from(exit));
    push_line(&mut text, b"instructions", tally.instructions);
    push_line(&mut text, b"vectors", tally.vectors);
    push_line(&mut text, b"cuts", tally.cuts);
    push_line(&mut text, b"events", tally.events);
    push_line(&mut text, b"frames", tally.frames);
    push_line(&mut text, b"shots", tally.shots);
    text
}

/// What is said of a run: seven lines, its exit code and what was counted, and two more for a script of version 2.
pub fn report(version: Version, exit: u8, tally: &Tally) -> ArrayVec<u8, 256>
    ensures { result.items ≡ report_text version exit tally.now }
{
    let mut text = common_lines(exit, tally);
    match version {
        Version::First => {}
        Version::Second => {
            push_line(&mut text, b"expects", tally.expects);
            push_line(&mut text, b"misses", tally.misses);
        }
    }
    text
}
