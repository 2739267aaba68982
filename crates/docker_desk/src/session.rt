//! What changes in a session: the desk and the look.
use crate::desk::Desk;

/// A session: the desk, and the result of the look on which the next draft is based. That look was
/// made right before the opening at which the state was last read or renewed, or right after `save`
/// last replaced the file.
#[derive(Drop)]
pub struct Session<T> {
    /// The desk.
    pub desk: Desk,
    /// The result of the look at the state's file.
    pub seen: T,
}
