//! Tests of shelves, which are folders in memory: the texts that they hold, and the calls at which
//! they fail.

use crate::compare::same;
use crate::folders::{has_few_failures, holds, read, store, stores};
use docker_host::{Fails, Folder, OpenFault, Shelf};
use std::alloc::Global;
use std::process::Abort;

/// Returns a shelf with one file of 300 bytes, and with room for a draft of 1,000 bytes.
fn shelf_of(rt: &impl Abort, alloc: Global) -> Shelf {
    let mut shelf = Shelf::new(alloc, 1000);
    assert!(rt; shelf.put("F", &[65; 300]).is_ok());
    shelf
}

/// Asserts that the file `F` is read to its end and has this many bytes. With `None`, asserts that
/// it isn't read to its end.
fn reads(rt: &impl Abort, alloc: Global, shelf: &mut Shelf, length: Option<usize>) {
    let text = read(rt, alloc, shelf, "F");
    same(rt, text.map(|text| text.len()), length);
}

#[test]
fn texts_that_were_put(rt: HostRuntime) {
    let mut shelf = shelf_of(&rt, rt.alloc());
    reads(&rt, rt.alloc(), &mut shelf, Some(300));
    assert!(&rt; shelf.put("G", b"one").is_ok());
    assert!(&rt; shelf.put("F", b"two").is_ok());
    holds(&rt, rt.alloc(), &mut shelf, "F", "two");
    holds(&rt, rt.alloc(), &mut shelf, "G", "one");
    same(&rt, shelf.text("G"), Some(b"one".as_slice()));
    same(&rt, shelf.text("H"), None);
    same(&rt, shelf.failures(), 0);
}

#[test]
fn a_text_that_is_stored(rt: HostRuntime) {
    let mut shelf = shelf_of(&rt, rt.alloc());
    stores(&rt, &mut shelf, "F", "one", Ok(()));
    holds(&rt, rt.alloc(), &mut shelf, "F", "one");
    stores(&rt, &mut shelf, "G", "two", Ok(()));
    same(&rt, shelf.text("G"), Some(b"two".as_slice()));
}

#[test]
fn another_text_that_came_since(rt: HostRuntime) {
    let mut shelf = shelf_of(&rt, rt.alloc());
    let seen = shelf.look("F");
    assert!(&rt; shelf.put("F", b"one").is_ok());
    same(
        &rt,
        store(&rt, &mut shelf, "F", &seen, "two"),
        Err(OpenFault::Failed),
    );
    same(&rt, shelf.text("F"), Some(b"one".as_slice()));
    same(&rt, shelf.failures(), 1);
}

#[test]
fn the_same_text_that_came_since(rt: HostRuntime) {
    let mut shelf = shelf_of(&rt, rt.alloc());
    let seen = shelf.look("F");
    assert!(&rt; shelf.put("F", b"one").is_ok());
    assert!(&rt; shelf.put("F", &[65; 300]).is_ok());
    same(
        &rt,
        store(&rt, &mut shelf, "F", &seen, "two"),
        Err(OpenFault::Failed),
    );
    reads(&rt, rt.alloc(), &mut shelf, Some(300));
}

#[test]
fn another_name_that_got_a_text_since(rt: HostRuntime) {
    let mut shelf = shelf_of(&rt, rt.alloc());
    let seen = shelf.look("F");
    assert!(&rt; shelf.put("G", b"one").is_ok());
    same(&rt, store(&rt, &mut shelf, "F", &seen, "two"), Ok(()));
    holds(&rt, rt.alloc(), &mut shelf, "F", "two");
}

#[test]
fn a_look_at_another_shelf(rt: HostRuntime) {
    let mut shelf = shelf_of(&rt, rt.alloc());
    let seen = Shelf::new(rt.alloc(), 0).look("F");
    same(
        &rt,
        store(&rt, &mut shelf, "F", &seen, "two"),
        Err(OpenFault::Failed),
    );
    reads(&rt, rt.alloc(), &mut shelf, Some(300));
}

/// Reads the file of a shelf that fails at this call. Asserts how often the shelf has then failed,
/// and that the file can be read to its end once the shelf no longer fails.
fn fails_reading(rt: &impl Abort, alloc: Global, fails: Fails, failures: u64) {
    let mut shelf = shelf_of(rt, alloc);
    shelf.fail(fails);
    reads(rt, alloc, &mut shelf, None);
    same(rt, shelf.failures(), failures);
    shelf.fail(Fails::Never);
    reads(rt, alloc, &mut shelf, Some(300));
}

/// Stores a text on a shelf that fails at this call. Asserts the fault and how often the shelf has
/// then failed, and that the text is stored once the shelf no longer fails.
fn fails_storing(rt: &impl Abort, alloc: Global, fails: Fails, fault: OpenFault, failures: u64) {
    let mut shelf = shelf_of(rt, alloc);
    shelf.fail(fails);
    stores(rt, &mut shelf, "F", "some text", Err(fault));
    same(rt, shelf.failures(), failures);
    shelf.fail(Fails::Never);
    reads(rt, alloc, &mut shelf, Some(300));
    has_few_failures(rt, &shelf);
    stores(rt, &mut shelf, "F", "some text", Ok(()));
}

#[test]
fn a_shelf_that_fails(rt: HostRuntime) {
    let alloc = rt.alloc();
    fails_reading(&rt, alloc, Fails::AtOpen, 1);
    fails_reading(&rt, alloc, Fails::AtOpenForMemory, 0);
    fails_reading(&rt, alloc, Fails::AfterReading(0), 1);
    fails_reading(&rt, alloc, Fails::AfterReading(250), 1);
    fails_storing(&rt, alloc, Fails::AtCreate, OpenFault::Failed, 1);
    fails_storing(&rt, alloc, Fails::AtCreateForMemory, OpenFault::Memory, 0);
    fails_storing(&rt, alloc, Fails::AfterWriting(4), OpenFault::Failed, 1);
    fails_storing(&rt, alloc, Fails::AtComplete, OpenFault::Failed, 1);
}
