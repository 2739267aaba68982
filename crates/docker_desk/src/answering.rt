//! Answers a line.
ghost use Rattle.std.specs.Prelude.{◌≡◌, ◌-◌, ◌^◌, ◌<◌};
ghost use Rattle.docker_cmd.specs.FaultLine.{IsCounted};
ghost use Rattle.docker_cmd.specs.JobLine.{IsLineText};
ghost use Rattle.docker_desk.specs.Lines.{whole_line};
ghost use Rattle.docker_desk.specs.Requests.{request_meant};
ghost use Rattle.docker_desk.specs.Replies.{answer_meant, answer_status};
ghost use Rattle.docker_desk.specs.Doing.{DoesLine, DoesRequest, answer_of};
ghost use Rattle.docker_desk.specs.SessionViews.{point_of, setting_of};

use crate::reply::Answer;
use crate::requests::{Request, request_in};
use crate::session::Session;
use crate::session_words::SessionWords;
use docker_cmd::OfficeFault;
use docker_host::Folder;

/// Answers one line. If the line is a request, carries out the request. A refusal changes nothing.
pub fn answer_line<D: Folder>(
    words: &SessionWords<'_>,
    line: &[u8],
    session: &mut Session<D::Seen>,
    folder: &mut D,
) -> Answer
    requires line { IsLineText line.now }
    requires few { D.failures folder.old < 2 ^ 64 - 1 }
    ensures { DoesLine (setting_of words.now D.names_bytes) (whole_line line.now)
        (point_of D.look_of D.history D.failures session.old folder.old) (answer_meant result)
        (point_of D.look_of D.history D.failures session.new folder.new) }
{
    match request_in(line, words.may_write) {
        Some(request) => answer_request(words, &request, session, folder),
        None => Answer::Usage,
    }
}

/// Carries out a request, and returns the answer.
fn answer_request<D: Folder>(
    words: &SessionWords<'_>,
    request: &Request<'_>,
    session: &mut Session<D::Seen>,
    folder: &mut D,
) -> Answer
    requires { D.failures folder.old < 2 ^ 64 - 1 }
    ensures does { DoesRequest (setting_of words.now D.names_bytes)
        (request_meant request.now)
        (point_of D.look_of D.history D.failures session.old folder.old) (answer_meant result)
        (point_of D.look_of D.history D.failures session.new folder.new) }
    ensures counted { IsCounted (answer_status (answer_meant result))
        (D.failures folder.old) (D.failures folder.new) }
{
    match request {
        Request::Show(query) => session.desk.show(query),
        Request::Renew => {
            let compares = words.may_write;
            let renewed = session
                .desk
                .renew(words.name, compares, &mut session.seen, folder);
            answer_to(renewed)
        }
        Request::Take(name) => answer_to(session.desk.take(name, folder)),
        Request::Merge(name) => answer_to(session.desk.receive(name, folder)),
        Request::Horizon { day } => {
            session.desk.set_horizon(*day);
            Answer::Done
        }
        Request::Save => {
            let saved = session.desk.save(words.name, &mut session.seen, folder);
            answer_to(saved)
        }
    }
}

/// Returns the answer to a request that ended with this result. If the request succeeded, the
/// answer has no text.
fn answer_to<T: Drop>(outcome: Result<T, OfficeFault>) -> Answer
    ensures { answer_meant result ≡ answer_of outcome }
{
    match outcome {
        Ok(_) => Answer::Done,
        Err(fault) => Answer::Refused(fault),
    }
}
