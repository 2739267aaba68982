//! Folders and hosts. Each folder has a history of the calls to the folder and their results. A
//! host is one value that holds all devices of a program.
#![tactic(auto)]

mod counted;
mod draft_end;
mod draft_file;
mod draft_place;
mod exchanges;
mod fault_sink;
mod folder;
mod history;
mod host;
mod input_device;
mod missing;
mod output_device;
mod real_devices;
mod real_folder;
mod session_devices;
mod session_host;
mod shelf;
mod shelf_file;
mod standard;
mod streams;
mod transfers;
mod version;

pub use draft_end::end_draft;
pub use draft_file::DraftFile;
pub use exchanges::{Exchanges, StreamCall};
pub use fault_sink::tell_text;
pub use folder::{Drafted, Folder, OpenFault};
pub use history::{History, Note, Position};
pub use host::Host;
pub use input_device::InputDevice;
pub use output_device::OutputDevice;
pub use real_devices::real_host;
pub use real_folder::{RealFolder, Seen};
pub use session_devices::real_session_host;
pub use session_host::SessionHost;
pub use shelf::{Fails, Shelf, Sight};
pub use shelf_file::ShelfFile;
pub use standard::{Standard, hold_standard};
pub use streams::Streams;
