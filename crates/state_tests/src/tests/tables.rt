//! Tables of entries: how they are joined and searched, and how their entries lapse.

use super::compare::same;
use super::entries::entry;
use cif_file::Key;
use cif_line::Tiploc;
use docker_join::{Entry, Merge, Table};
use std::alloc::Global;
use std::process::Abort;

/// The key of a timing point.
fn key(rt: &impl Abort, code: &str) -> Key {
    Key::Tiploc(Tiploc::from_text(code).expect(rt, "a TIPLOC"))
}

/// A table with one timing point. The timing point has the entry with this number, which is one of
/// the nine entries in `entries.rt`.
fn one_row(rt: &impl Abort, alloc: Global, code: &str, place: u8) -> Table<Entry> {
    let mut rows = Vec::new(alloc);
    rows.push((key(rt, code), entry(rt, place)))
        .expect(rt, "memory");
    Table::from_rows(rows)
}

/// A table with these timing points. Each timing point has the entry with the given number, which
/// is one of the nine entries in `entries.rt`.
fn table(rt: &impl Abort, alloc: Global, rows: &[(&str, u8)]) -> Table<Entry> {
    let mut all = Table::new(alloc);
    for (code, place) in rows {
        let row = one_row(rt, alloc, code, *place);
        all = all.join(alloc, row).expect(rt, "memory");
    }
    all
}

/// Asserts that a timing point has the entry with this number, which is one of the nine entries in
/// `entries.rt`.
fn entry_is(rt: &impl Abort, table: &Table<Entry>, code: &str, place: u8) {
    same(rt, table.get(&key(rt, code)), Some(&entry(rt, place)));
}

/// Asserts that the row at this index has the key of this timing point.
fn key_is(rt: &impl Abort, rows: &[(Key, Entry)], at: usize, code: &str) {
    let row = rows.get(at).expect(rt, "a row");
    same(rt, row.0, key(rt, code));
}

#[test]
fn tables(rt: HostRuntime) {
    let alloc = rt.alloc();
    let one = table(&rt, alloc, &[("BRAYTON", 6), ("ASHFELD", 1)]);
    let other = table(&rt, alloc, &[("COLWELL", 4), ("ASHFELD", 7)]);
    let wanted = table(
        &rt,
        alloc,
        &[("ASHFELD", 7), ("BRAYTON", 6), ("COLWELL", 4)],
    );
    let joined = one.join(alloc, other).expect(&rt, "memory");
    same(&rt, joined.as_slice(), wanted.as_slice());
    same(&rt, joined.len(), 3);
    same(&rt, joined.is_empty(), false);
    entry_is(&rt, &joined, "ASHFELD", 7);
    same(&rt, joined.get(&key(&rt, "DENHAM")), None);
    let rows = joined.into_rows();
    same(&rt, rows.len(), 3);
    key_is(&rt, rows.as_slice(), 0, "ASHFELD");
    key_is(&rt, rows.as_slice(), 1, "BRAYTON");
    key_is(&rt, rows.as_slice(), 2, "COLWELL");
}

#[test]
fn out_of_memory_returns_both(rt: HostRuntime) {
    let alloc = rt.alloc();
    let one = table(&rt, alloc, &[("ASHFELD", 1), ("BRAYTON", 6)]);
    let other = table(&rt, alloc, &[("ASHFELD", 7)]);
    let same_one = table(&rt, alloc, &[("ASHFELD", 1), ("BRAYTON", 6)]);
    let same_other = table(&rt, alloc, &[("ASHFELD", 7)]);
    match one.join(alloc, other) {
        Ok(joined) => same(&rt, joined.len(), 2),
        Err((one, other)) => {
            same(&rt, one.as_slice(), same_one.as_slice());
            same(&rt, other.as_slice(), same_other.as_slice());
        }
    }
}

#[test]
fn what_ended_lapses(rt: HostRuntime) {
    let mut all = table(
        &rt,
        rt.alloc(),
        &[
            ("ASHFELD", 1),
            ("BRAYTON", 3),
            ("COLWELL", 4),
            ("DENHAM", 5),
        ],
    );
    all.lapse(1);
    let mut lapsed = entry(&rt, 3);
    lapsed.lapse(1);
    same(&rt, lapsed, entry(&rt, 2));
    entry_is(&rt, &all, "BRAYTON", 2);
    entry_is(&rt, &all, "ASHFELD", 1);
    entry_is(&rt, &all, "COLWELL", 4);
    entry_is(&rt, &all, "DENHAM", 5);
    same(&rt, all.len(), 4);
}
