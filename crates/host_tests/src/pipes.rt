//! Tests of files that aren't regular, such as `/dev/null`. A text is written to such a file
//! directly, without a draft.

use crate::compare::same;
use crate::folders::{read, store, stores};
use docker_host::{Folder, OpenFault, RealFolder};
use std::fs;
use std::os::unix::fs::symlink;

#[test]
fn a_device_is_written_in_its_place(rt: HostRuntime) {
    let mut folder = RealFolder::new(&rt);
    stores(&rt, &mut folder, "/dev/null", "one", Ok(()));
    let read = read(&rt, rt.alloc(), &mut folder, "/dev/null");
    same(&rt, read.map(|text| text.len()), Some(0));
    same(&rt, folder.failures(), 0);
}

#[test]
fn a_device_that_is_full(rt: HostRuntime) {
    let mut folder = RealFolder::new(&rt);
    stores(&rt, &mut folder, "/dev/full", "one", Err(OpenFault::Failed));
    same(&rt, folder.failures(), 1);
}

#[test]
fn a_folder_that_is_read_fails(rt: HostRuntime) {
    let mut folder = RealFolder::new(&rt);
    let read = read(&rt, rt.alloc(), &mut folder, "/");
    same(&rt, read.is_none(), true);
    same(&rt, folder.failures(), 1);
}

#[test]
fn another_device_that_came_since(rt: HostRuntime) {
    let _ = fs::remove_file(&rt, "device");
    assert!(&rt; symlink(&rt, "/dev/null", "device").is_ok());
    let mut folder = RealFolder::new(&rt);
    let seen = folder.look("device");
    assert!(&rt; fs::remove_file(&rt, "device").is_ok());
    assert!(&rt; symlink(&rt, "/dev/zero", "device").is_ok());
    let stored = store(&rt, &mut folder, "device", &seen, "one");
    same(&rt, stored, Err(OpenFault::Failed));
    same(&rt, folder.failures(), 1);
    stores(&rt, &mut folder, "device", "one", Ok(()));
}

#[test]
fn a_file_that_came_in_place_of_a_device(rt: HostRuntime) {
    let _ = fs::remove_file(&rt, "no_device");
    assert!(&rt; symlink(&rt, "/dev/null", "no_device").is_ok());
    let mut folder = RealFolder::new(&rt);
    let seen = folder.look("no_device");
    assert!(&rt; fs::remove_file(&rt, "no_device").is_ok());
    assert!(&rt; fs::write(&rt, "no_device", "by another program").is_ok());
    let stored = store(&rt, &mut folder, "no_device", &seen, "one");
    same(&rt, stored, Err(OpenFault::Failed));
    let held = read(&rt, rt.alloc(), &mut folder, "no_device");
    same(&rt, held.map(|text| text.len()), Some(18));
}

#[test]
fn a_device_that_came_where_nothing_was(rt: HostRuntime) {
    let _ = fs::remove_file(&rt, "device_since");
    let mut folder = RealFolder::new(&rt);
    let seen = folder.look("device_since");
    assert!(&rt; symlink(&rt, "/dev/null", "device_since").is_ok());
    let stored = store(&rt, &mut folder, "device_since", &seen, "one");
    same(&rt, stored, Err(OpenFault::Failed));
    same(&rt, folder.failures(), 1);
}
