//! The desk: reads lines, finds the request in each, answers from the state that it keeps in
//! memory, and serves whole sessions.
#![tactic(auto)]

mod ahead;
mod answering;
mod answers;
mod compared;
mod copying;
mod desk;
mod ending;
mod given;
mod help;
pub mod laws;
mod lines;
mod matching;
mod opening;
mod page;
mod program;
mod query;
mod reading;
mod reply;
mod requests;
mod saving;
mod serving;
mod session;
mod session_words;
mod showing;
mod witness;
mod words;

pub use ahead::Ahead;
pub use answering::answer_line;
pub use answers::write_answer;
pub use compared::Compared;
pub use desk::Desk;
pub use ending::Ending;
pub use given::serve_given;
pub use lines::{Asked, InputFault, next_line};
pub use opening::open_session;
pub use page::Page;
pub use program::serve;
pub use query::{DockerKind, Query};
pub use reply::{Answer, write_reply};
pub use requests::{Request, file_named, request_in};
pub use serving::{serve_lines, serve_next};
pub use session::Session;
pub use session_words::{SessionWords, session_words_in};
pub use witness::files_of_none;
