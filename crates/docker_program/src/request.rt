//! Finds the job that is named by the words or by the first line of standard input.
ghost use Rattle.std.specs.Prelude.{◌≡◌, ◌-◌, ◌^◌, ◌<◌, [], IfOk, OnOk, Err};
ghost use Rattle.cif_device.specs.Device.{CountsFailure, IsNotPassed};
ghost use Rattle.docker_cmd.specs.Words.{texts};
ghost use Rattle.docker_program.specs.Program.{AskForNone, AskForSome, AsksAtMost, AsksFor};

use cif_line::Source;
use docker_cmd::{Job, JobFault, job, job_line};
use std::alloc::Global;

/// Returns the job that the words name. Without words, the first line of standard input names the
/// job.
pub(crate) fn requested_job<S: Source>(
    alloc: Global,
    words: &[&str],
    stdin: &mut S,
) -> Result<Job, JobFault>
    requires { S.failures stdin.old < 2 ^ 64 - 1 }
    ensures job { IfOk result (λ job.
        AsksFor (texts words.now) (S.left stdin.old) job (S.left stdin.new)) }
    ensures at_most { AsksAtMost (texts words.now) (S.left stdin.old) (S.left stdin.new) }
    ensures usage { (result ≡ Err JobFault.Usage)
        → AskForNone (texts words.now) (S.left stdin.old) }
    ensures memory { (result ≡ Err JobFault.Memory)
        → AskForSome (texts words.now) (S.left stdin.old) }
    ensures line { (result ≡ Err JobFault.Source) → texts words.now ≡ [] }
    ensures failures { CountsFailure (result ≡ Err JobFault.Source)
        (S.failures stdin.old) (S.failures stdin.new) }
    ensures not_ended { OnOk result (S.ended stdin.new ≡ S.ended stdin.old) }
    ensures not_passed { IsNotPassed (S.ended stdin.old) (S.passed stdin.old) (S.passed stdin.new) }
{
    if words.is_empty() {
        job_line(alloc, stdin)
    } else {
        job(alloc, words)
    }
}
