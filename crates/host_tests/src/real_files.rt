//! Tests of how real files are read and replaced, and when a draft is refused. Tests run in
//! parallel, so each test uses file names of its own.

use crate::compare::same;
use crate::folders::{finish, has_few_failures, holds, store, stores};
use docker_host::{Folder, OpenFault, RealFolder};
use std::alloc::Global;
use std::fs;
use std::fs::{Files, Permissions};
use std::os::unix::fs::{PermissionsExt, symlink};
use std::process::Abort;

/// The result of `store` if no draft could be made, or if the draft couldn't be written or renamed
/// over the file.
const FAILED: Result<(), OpenFault> = Err(OpenFault::Failed);

/// Writes a file, as another program would.
fn put(rt: &(impl Abort + Files), name: &str, text: &str) {
    assert!(rt; fs::write(rt, name, text).is_ok());
}

/// Removes the named file, if there is one.
fn clear(rt: &(impl Abort + Files), name: &str) {
    let _ = fs::remove_file(rt, name);
}

/// Makes a symbolic link from `name` to `to`.
fn link(rt: &(impl Abort + Files), to: &str, name: &str) {
    clear(rt, name);
    assert!(rt; symlink(rt, to, name).is_ok());
}

/// Asserts that there is a file or a link with this name, or that there is none if `there` is
/// false. A symbolic link isn't followed.
fn stands(rt: &(impl Abort + Files), name: &str, there: bool) {
    same(rt, fs::symlink_metadata(rt, name).is_ok(), there);
}

/// Asserts that this is the name of a symbolic link.
fn is_link(rt: &(impl Abort + Files), name: &str) {
    let Ok(there) = fs::symlink_metadata(rt, name) else {
        panic!(rt; "nothing is there");
    };
    assert!(rt; there.is_symlink());
}

#[test]
fn a_file_is_written_and_read(rt: HostRuntime) {
    clear(&rt, "written");
    let mut folder = RealFolder::new(&rt);
    stores(&rt, &mut folder, "written", "one", Ok(()));
    holds(&rt, rt.alloc(), &mut folder, "written", "one");
    stores(&rt, &mut folder, "written", "another", Ok(()));
    holds(&rt, rt.alloc(), &mut folder, "written", "another");
    stands(&rt, "written.new", false);
    same(&rt, folder.failures(), 0);
}

#[test]
fn a_file_that_is_missing(rt: HostRuntime) {
    clear(&rt, "missing");
    let mut folder = RealFolder::new(&rt);
    same(&rt, folder.open("missing").err(), Some(OpenFault::Failed));
    same(&rt, folder.failures(), 1);
}

#[test]
fn another_text_that_came_since(rt: HostRuntime) {
    put(&rt, "overtaken", "one");
    let mut folder = RealFolder::new(&rt);
    let seen = folder.look("overtaken");
    put(&rt, "overtaken", "two, by another program");
    same(
        &rt,
        store(&rt, &mut folder, "overtaken", &seen, "three"),
        FAILED,
    );
    holds(
        &rt,
        rt.alloc(),
        &mut folder,
        "overtaken",
        "two, by another program",
    );
    stands(&rt, "overtaken.new", false);
    same(&rt, folder.failures(), 1);
    stores(&rt, &mut folder, "overtaken", "three", Ok(()));
    holds(&rt, rt.alloc(), &mut folder, "overtaken", "three");
}

#[test]
fn a_file_that_came_since(rt: HostRuntime) {
    clear(&rt, "come");
    let mut folder = RealFolder::new(&rt);
    let seen = folder.look("come");
    put(&rt, "come", "one");
    same(&rt, store(&rt, &mut folder, "come", &seen, "two"), FAILED);
    holds(&rt, rt.alloc(), &mut folder, "come", "one");
}

#[test]
fn a_file_that_went_away(rt: HostRuntime) {
    put(&rt, "gone", "one");
    let mut folder = RealFolder::new(&rt);
    let seen = folder.look("gone");
    clear(&rt, "gone");
    same(&rt, store(&rt, &mut folder, "gone", &seen, "two"), FAILED);
    stands(&rt, "gone", false);
    stands(&rt, "gone.new", false);
}

#[test]
fn a_link_whose_file_went_away(rt: HostRuntime) {
    put(&rt, "led", "one");
    link(&rt, "led", "leads");
    let mut folder = RealFolder::new(&rt);
    let seen = folder.look("leads");
    clear(&rt, "led");
    same(&rt, store(&rt, &mut folder, "leads", &seen, "two"), FAILED);
    stands(&rt, "led", false);
    is_link(&rt, "leads");
}

#[test]
fn a_link_that_leads_to_a_device_since(rt: HostRuntime) {
    put(&rt, "file_led", "one");
    link(&rt, "file_led", "leads_on");
    let mut folder = RealFolder::new(&rt);
    let seen = folder.look("leads_on");
    link(&rt, "/dev/null", "file_led");
    same(
        &rt,
        store(&rt, &mut folder, "leads_on", &seen, "two"),
        FAILED,
    );
    same(&rt, folder.failures(), 1);
}

#[test]
fn a_link_to_a_file_stays(rt: HostRuntime) {
    put(&rt, "kept", "one");
    link(&rt, "kept", "keeps");
    let mut folder = RealFolder::new(&rt);
    stores(&rt, &mut folder, "keeps", "two", Ok(()));
    is_link(&rt, "keeps");
    holds(&rt, rt.alloc(), &mut folder, "kept", "two");
    stands(&rt, "kept.new", false);
}

#[test]
fn a_link_that_leads_nowhere_is_followed(rt: HostRuntime) {
    clear(&rt, "nowhere");
    link(&rt, "nowhere", "leads_nowhere");
    let mut folder = RealFolder::new(&rt);
    stores(&rt, &mut folder, "leads_nowhere", "one", Ok(()));
    is_link(&rt, "leads_nowhere");
    holds(&rt, rt.alloc(), &mut folder, "nowhere", "one");
    stands(&rt, "nowhere.new", false);
}

#[test]
fn links_that_lead_nowhere_are_followed_from_their_folders(rt: HostRuntime) {
    let _ = fs::create_dir(&rt, "linking");
    clear(&rt, "linked_to");
    link(&rt, "../leads_out", "linking/leads_out");
    link(&rt, "linked_to", "leads_out");
    let mut folder = RealFolder::new(&rt);
    stores(&rt, &mut folder, "linking/leads_out", "one", Ok(()));
    is_link(&rt, "linking/leads_out");
    is_link(&rt, "leads_out");
    holds(&rt, rt.alloc(), &mut folder, "linked_to", "one");
    stands(&rt, "linked_to.new", false);
    stores(&rt, &mut folder, "linking/leads_out", "two", Ok(()));
    holds(&rt, rt.alloc(), &mut folder, "linked_to", "two");
    same(&rt, folder.failures(), 0);
}

#[test]
fn links_that_lead_to_each_other(rt: HostRuntime) {
    link(&rt, "second_of_ring", "first_of_ring");
    link(&rt, "first_of_ring", "second_of_ring");
    let mut folder = RealFolder::new(&rt);
    stores(&rt, &mut folder, "first_of_ring", "one", FAILED);
    is_link(&rt, "first_of_ring");
    is_link(&rt, "second_of_ring");
    same(&rt, folder.failures(), 1);
}

/// Makes a draft of the named file. Then another program writes the file `written`, before the draft
/// is put in place. Asserts that the draft is refused, and that the other program's text stays.
fn is_overtaken(
    rt: &(impl Abort + Files),
    alloc: Global,
    folder: &mut RealFolder,
    name: &str,
    written: &str,
) {
    let seen = folder.look(name);
    has_few_failures(rt, folder);
    let Ok(made) = folder.create(name, &seen) else {
        panic!(rt; "no draft");
    };
    put(rt, written, "by another program");
    same(rt, finish(rt, folder, made, "two"), FAILED);
    holds(rt, alloc, folder, written, "by another program");
    same(rt, folder.failures(), 1);
}

#[test]
fn a_file_that_is_written_while_its_draft_is(rt: HostRuntime) {
    put(&rt, "late", "one");
    let mut folder = RealFolder::new(&rt);
    is_overtaken(&rt, rt.alloc(), &mut folder, "late", "late");
    stands(&rt, "late.new", false);
}

#[test]
fn a_file_that_comes_while_its_draft_is_written(rt: HostRuntime) {
    clear(&rt, "comes_late");
    let mut folder = RealFolder::new(&rt);
    is_overtaken(&rt, rt.alloc(), &mut folder, "comes_late", "comes_late");
    stands(&rt, "comes_late.new", false);
}

#[test]
fn the_target_of_a_link_comes_while_its_draft_is_written(rt: HostRuntime) {
    clear(&rt, "target_late");
    link(&rt, "target_late", "leads_late");
    let mut folder = RealFolder::new(&rt);
    is_overtaken(&rt, rt.alloc(), &mut folder, "leads_late", "target_late");
    is_link(&rt, "leads_late");
    stands(&rt, "target_late.new", false);
}

#[test]
fn a_folder_has_the_name_of_the_draft(rt: HostRuntime) {
    put(&rt, "blocked", "one");
    let _ = fs::create_dir(&rt, "blocked.new");
    let mut folder = RealFolder::new(&rt);
    stores(&rt, &mut folder, "blocked", "two", FAILED);
    holds(&rt, rt.alloc(), &mut folder, "blocked", "one");
    stands(&rt, "blocked.new", true);
    same(&rt, folder.failures(), 1);
}

#[test]
fn a_link_to_nothing_leads_to_a_file_while_its_draft_is_written(rt: HostRuntime) {
    clear(&rt, "not_there");
    link(&rt, "not_there", "leads_to_it");
    put(&rt, "elsewhere", "one");
    let mut folder = RealFolder::new(&rt);
    let seen = folder.look("leads_to_it");
    let Ok(made) = folder.create("leads_to_it", &seen) else {
        panic!(&rt; "no draft");
    };
    link(&rt, "elsewhere", "leads_to_it");
    same(&rt, finish(&rt, &mut folder, made, "two"), FAILED);
    holds(&rt, rt.alloc(), &mut folder, "elsewhere", "one");
    stands(&rt, "not_there", false);
    stands(&rt, "not_there.new", false);
}

#[test]
fn another_file_takes_the_name_of_a_draft(rt: HostRuntime) {
    put(&rt, "drafted", "one");
    let mut folder = RealFolder::new(&rt);
    let seen = folder.look("drafted");
    let Ok(made) = folder.create("drafted", &seen) else {
        panic!(&rt; "no draft");
    };
    put(&rt, "drafted_elsewhere", "by another program");
    assert!(&rt; fs::rename(&rt, "drafted_elsewhere", "drafted.new").is_ok());
    same(&rt, finish(&rt, &mut folder, made, "two"), FAILED);
    holds(&rt, rt.alloc(), &mut folder, "drafted", "one");
    holds(
        &rt,
        rt.alloc(),
        &mut folder,
        "drafted.new",
        "by another program",
    );
    clear(&rt, "drafted.new");
}

#[test]
fn a_draft_that_another_folder_is_writing(rt: HostRuntime) {
    put(&rt, "at_work", "one");
    let mut folder = RealFolder::new(&rt);
    let seen = folder.look("at_work");
    let Ok(made) = folder.create("at_work", &seen) else {
        panic!(&rt; "no draft");
    };
    let mut other = RealFolder::new(&rt);
    stores(&rt, &mut other, "at_work", "by another program", FAILED);
    same(&rt, other.failures(), 1);
    same(&rt, finish(&rt, &mut folder, made, "two"), Ok(()));
    holds(&rt, rt.alloc(), &mut folder, "at_work", "two");
    stands(&rt, "at_work.new", false);
}

#[test]
fn a_draft_that_was_left_over(rt: HostRuntime) {
    put(&rt, "resumed", "one");
    put(&rt, "resumed.new", "half of a text");
    assert!(&rt; fs::set_permissions(&rt, "resumed.new", Permissions::from_mode(0o1644)).is_ok());
    let mut folder = RealFolder::new(&rt);
    stores(&rt, &mut folder, "resumed", "two", Ok(()));
    holds(&rt, rt.alloc(), &mut folder, "resumed", "two");
    stands(&rt, "resumed.new", false);
}

#[test]
fn permissions_are_kept(rt: HostRuntime) {
    put(&rt, "private", "one");
    assert!(&rt; fs::set_permissions(&rt, "private", Permissions::from_mode(0o640)).is_ok());
    let mut folder = RealFolder::new(&rt);
    stores(&rt, &mut folder, "private", "two", Ok(()));
    let Ok(file) = fs::metadata(&rt, "private") else {
        panic!(rt; "no file");
    };
    same(&rt, file.permissions().mode() & 0o7777, 0o640);
}

#[test]
fn a_new_file_has_the_permissions_of_any_new_file(rt: HostRuntime) {
    clear(&rt, "any_new_file");
    put(&rt, "any_new_file", "one");
    clear(&rt, "made_anew");
    let mut folder = RealFolder::new(&rt);
    stores(&rt, &mut folder, "made_anew", "one", Ok(()));
    let (Ok(any), Ok(made)) = (
        fs::metadata(&rt, "any_new_file"),
        fs::metadata(&rt, "made_anew"),
    ) else {
        panic!(rt; "no file");
    };
    same(&rt, made.permissions().mode(), any.permissions().mode());
}

#[test]
fn a_draft_that_is_given_up(rt: HostRuntime) {
    put(&rt, "given_up", "one");
    let mut folder = RealFolder::new(&rt);
    let seen = folder.look("given_up");
    let Ok(made) = folder.create("given_up", &seen) else {
        panic!(rt; "no draft");
    };
    stands(&rt, "given_up.new", true);
    folder.discard(made);
    stands(&rt, "given_up.new", false);
    holds(&rt, rt.alloc(), &mut folder, "given_up", "one");
}

#[test]
fn a_look_sees_what_was_placed(rt: HostRuntime) {
    put(&rt, "placed", "one");
    let mut folder = RealFolder::new(&rt);
    stores(&rt, &mut folder, "placed", "two", Ok(()));
    put(&rt, "placed", "three, by another program");
    let seen = folder.look("placed");
    same(
        &rt,
        store(&rt, &mut folder, "placed", &seen, "four"),
        FAILED,
    );
    holds(
        &rt,
        rt.alloc(),
        &mut folder,
        "placed",
        "three, by another program",
    );
    has_few_failures(&rt, &folder);
    stores(&rt, &mut folder, "placed", "four", Ok(()));
    holds(&rt, rt.alloc(), &mut folder, "placed", "four");
}
