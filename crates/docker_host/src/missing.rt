//! Names under which no file is. Such a name may be a link, or the first of several links, to a
//! missing file.
use crate::folder::OpenFault;
use std::fs;
use std::io::ErrorKind;
use std::path::Path;

/// The number of links that are followed from one name. Linux follows as many.
const LINKS: u32 = 40;

/// Whether no file is under this name. Links are followed.
pub(crate) fn is_missing(rt: &HostRuntime, name: &str) -> bool {
    match fs::metadata(rt, name) {
        Ok(_) => false,
        Err(error) => error.kind() == ErrorKind::NotFound,
    }
}

/// Whether nothing has this name, not even a link.
pub(crate) fn is_free(rt: &HostRuntime, name: &str) -> bool {
    match fs::symlink_metadata(rt, name) {
        Ok(_) => false,
        Err(error) => error.kind() == ErrorKind::NotFound,
    }
}

/// Returns the path of the missing file under this name. Each link on the way is read once. Fails if
/// a file is there.
pub(crate) fn path_of_missing(rt: &HostRuntime, name: &str) -> Result<String, OpenFault> {
    match fs::metadata(rt, name) {
        Ok(_) => return Err(OpenFault::Failed),
        Err(error) if error.kind() == ErrorKind::NotFound => {}
        Err(error) => return Err(OpenFault::from(error)),
    }
    let mut path = String::from_str(rt.alloc(), name)?;
    for _ in 0..LINKS {
        match next_of(rt, path.as_str())? {
            Some(next) => path = next,
            None => return Ok(path),
        }
    }
    Err(OpenFault::Failed)
}

/// Returns the path to which the link with this path leads, or `None` if nothing has this path. Fails
/// if anything else has this path.
fn next_of(rt: &HostRuntime, path: &str) -> Result<Option<String>, OpenFault> {
    match fs::symlink_metadata(rt, path) {
        Ok(there) if there.is_symlink() => {}
        Ok(_) => return Err(OpenFault::Failed),
        Err(error) if error.kind() == ErrorKind::NotFound => return Ok(None),
        Err(error) => return Err(OpenFault::from(error)),
    }
    let target = fs::read_link(rt, path)?.into_string();
    let Some(folder) = Path::new(path).parent() else {
        return Err(OpenFault::Failed);
    };
    Ok(Some(folder.join(rt.alloc(), target.as_str())?.into_string()))
}
