//! Looks at the file that a job writes, before the job reads anything.
ghost use Rattle.std.specs.Prelude.{◌≡◌, IfSome, length, option_map};
ghost use Rattle.docker_program.specs.SourceNames.{stored_by};
ghost use Rattle.docker_program.specs.Sources.{with_look_at};

use crate::job_names::stored_name;
use docker_cmd::Job;
use docker_host::Folder;

/// A file that was looked at.
#[derive(Drop)]
pub(crate) struct Looked<'a, T> {
    /// The file's name.
    pub(crate) name: &'a str,
    /// The result of the look, on which a draft for the file can be based.
    pub(crate) seen: T,
}

/// Looks at the file that the job writes, before the job reads anything. Returns `None`, and looks
/// at nothing, if the job prints.
pub(crate) fn look_at_stored<'a, D: Folder>(
    job: &'a Job,
    folder: &mut D,
) -> Option<Looked<'a, D::Seen>>
    ensures name { option_map (λ it. it.name.now) result ≡ stored_by job.now }
    ensures look { IfSome result (λ it. D.look_of it.seen ≡ length (D.history folder.old)) }
    ensures asked { D.history folder.new ≡ with_look_at (stored_by job.now) (D.history folder.old) }
    ensures no_failure { D.failures folder.new ≡ D.failures folder.old }
{
    let name = stored_name(job)?;
    let seen = folder.look(name);
    Some(Looked { name, seen })
}
