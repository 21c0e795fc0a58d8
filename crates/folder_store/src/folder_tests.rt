//! The real folder.

use crate::store::FolderStore;
use outside_traits::{Failed, Store};
use std::io::ErrorKind;
use std::os::unix::fs::symlink;
use std::path::PathBuf;
use std::test::Fail;
use std::{env, fs, process};

// A call of a store, and what it answers.
#[derive(Clone, Copy)]
enum Call<'a> {
    Write(u64, u64, &'a [u8]),
    Sync(u64),
    Cut(u64, u64),
    Remove(u64),
    // The bytes of a file from a place to its end, of which there are at most 8.
    Read(u64, u64, &'a [u8]),
    Size(u64, u64),
    Next(u64, Option<u64>),
    // Its size, a write and its removal fail.
    IsForeign(u64),
}

// Whether the call answers so.
fn answers(store: &mut impl Store, call: &Call) -> Result<bool, Failed> {
    match call {
        Call::Write(file, at, bytes) => return writes(store, *file, *at, bytes),
        Call::Sync(file) => store.sync(*file)?,
        Call::Cut(file, len) => store.cut(*file, *len)?,
        Call::Remove(file) => store.remove(*file)?,
        Call::Read(file, at, bytes) => return reads(store, *file, *at, bytes),
        Call::Size(file, size) => return Ok(store.size(*file)? == *size),
        Call::Next(from, file) => return Ok(store.next_file(*from)? == *file),
        Call::IsForeign(file) => return Ok(is_foreign(store, *file)),
    }
    Ok(true)
}

// Writes a few bytes near the beginning of a file.
fn writes(store: &mut impl Store, file: u64, at: u64, bytes: &[u8]) -> Result<bool, Failed> {
    if at > 8 || bytes.len() > 8 {
        return Ok(false);
    }
    store.write(file, at, bytes)?;
    Ok(true)
}

// Whether these bytes are read, and no others.
fn reads(store: &mut impl Store, file: u64, at: u64, bytes: &[u8]) -> Result<bool, Failed> {
    let mut buf = [1; 9];
    let count = store.read(file, at, &mut buf)?;
    let (read, rest) = buf.split_at(count);
    Ok(read == bytes && rest.iter().all(|byte| *byte == 1))
}

fn is_foreign(store: &mut impl Store, file: u64) -> bool {
    store.size(file).is_err() && store.write(file, 0, b"x").is_err() && store.remove(file).is_err()
}

// Whether the folder answers these calls so, one after another.
fn all_answer(store: &mut impl Store, folder: &str, calls: &[Call]) -> Result<bool, Failed> {
    store.attach(folder)?;
    for call in calls {
        if !answers(store, call)? {
            return Ok(false);
        }
    }
    Ok(true)
}

// The same of a store of its own.
fn all_answer_anew(rt: &HostRuntime, folder: &str, calls: &[Call]) -> Result<bool, Failed> {
    let mut store = FolderStore::new(rt);
    all_answer(&mut store, folder, calls)
}

// The same of a folder that isn't there before, nor afterwards.
fn all_answer_in_a_new_folder(rt: &HostRuntime, name: &str, calls: &[Call]) -> Result<bool, Fail> {
    let top = fresh_folder(rt, name)?;
    let all = all_answer_anew(rt, top.as_str(), calls)?;
    fs::remove_dir_all(rt, top.as_str())?;
    Ok(all)
}

// A folder of this name that isn't there.
fn fresh_folder(rt: &HostRuntime, name: &str) -> Result<PathBuf, Fail> {
    let folder = format!(in rt.alloc(); "nectar-{}-{name}", process::id(rt.process()))?;
    Ok(env::temp_dir(rt)?.join(rt.alloc(), folder.as_str())?)
}

#[test]
fn folder_is_made_and_its_files_are_read_back(rt: HostRuntime) -> Result<(), Fail> {
    let top = fresh_folder(&rt, "made")?;
    let folder = top.join(rt.alloc(), "missing/parents")?;
    let written = [Call::Write(7, 2, b"bytes"), Call::Sync(7)];
    assert!(rt; all_answer_anew(&rt, folder.as_str(), &written)?);
    let read = [
        Call::Size(7, 7),
        Call::Read(7, 0, b"\0\0bytes"),
        Call::Next(0, Some(7)),
        Call::Cut(7, 3),
        Call::Size(7, 3),
        Call::Remove(7),
        Call::Next(0, None),
        Call::Size(7, 0),
    ];
    assert!(rt; all_answer_anew(&rt, folder.as_str(), &read)?);
    fs::remove_dir_all(&rt, top.as_str())?;
    Ok(())
}

#[test]
fn file_that_was_read_is_written(rt: HostRuntime) -> Result<(), Fail> {
    let top = fresh_folder(&rt, "read-first")?;
    let written = [Call::Write(7, 0, b"bytes")];
    assert!(rt; all_answer_anew(&rt, top.as_str(), &written)?);
    let rewritten = [
        Call::Read(7, 1, b"ytes"),
        Call::Write(7, 4, b"ZZ"),
        Call::Read(7, 0, b"byteZZ"),
        Call::Next(0, Some(7)),
    ];
    assert!(rt; all_answer_anew(&rt, top.as_str(), &rewritten)?);
    fs::remove_dir_all(&rt, top.as_str())?;
    Ok(())
}

#[test]
fn no_bytes_past_the_end_make_a_file_longer(rt: HostRuntime) -> Result<(), Fail> {
    let calls = [
        Call::Write(1, 0, b"ab"),
        Call::Write(1, 5, b""),
        Call::Write(1, 1, b""),
        Call::Read(1, 0, b"ab\0\0\0"),
        Call::Write(2, 0, b""),
        Call::Next(2, Some(2)),
    ];
    assert!(rt; all_answer_in_a_new_folder(&rt, "empty-write", &calls)?);
    Ok(())
}

// Whether files that are written, more than are kept open, are read back.
fn many_answer(store: &mut impl Store, folder: &str) -> Result<bool, Failed> {
    store.attach(folder)?;
    for number in 0..40 {
        store.write(3 * number, 0, &[number as u8; 3])?;
        store.sync(3 * number)?;
    }
    Ok(are_read_back(store)? && are_listed(store)?)
}

fn are_read_back(store: &mut impl Store) -> Result<bool, Failed> {
    let mut all = true;
    for number in 0..40 {
        all = all && reads(store, 3 * number, 1, &[number as u8; 2])?;
    }
    Ok(all)
}

fn are_listed(store: &mut impl Store) -> Result<bool, Failed> {
    let mut all = true;
    for from in 0..118 {
        all = all && store.next_file(from)? == Some(from.div_ceil(3) * 3);
    }
    Ok(all && store.next_file(118)?.is_none())
}

fn many_answer_anew(rt: &HostRuntime, folder: &str) -> Result<bool, Failed> {
    let mut store = FolderStore::new(rt);
    many_answer(&mut store, folder)
}

#[test]
fn more_files_than_are_kept_open(rt: HostRuntime) -> Result<(), Fail> {
    let top = fresh_folder(&rt, "many")?;
    assert!(rt; many_answer_anew(&rt, top.as_str())?);
    fs::remove_dir_all(&rt, top.as_str())?;
    Ok(())
}

#[test]
fn listed_files_are_those_that_were_made_and_not_removed(rt: HostRuntime) -> Result<(), Fail> {
    let calls = [
        Call::Next(0, None),
        Call::Write(u64::MAX, 0, b"x"),
        Call::Write(5, 0, b"x"),
        Call::Size(4, 0),
        Call::Next(0, Some(5)),
        Call::Next(6, Some(u64::MAX)),
        Call::Remove(5),
        Call::Remove(5),
        Call::Next(0, Some(u64::MAX)),
        Call::Write(5, 0, b"y"),
        Call::Next(5, Some(5)),
    ];
    assert!(rt; all_answer_in_a_new_folder(&rt, "listed", &calls)?);
    Ok(())
}

// Names of files that are no file's of the store.
const FOREIGN_NAMES: [&str; 8] = [
    "05.nxt",
    "+6.nxt",
    "6.nxt.txt",
    "7",
    "nxt",
    ".nxt",
    "18446744073709551616.nxt",
    "8\u{ff}.nxt",
];

// A folder with files of foreign names, and with a folder, a link to a file and a link to nothing, each of a file's name.
fn make_foreign(rt: &HostRuntime, top: &PathBuf) -> Result<(), Fail> {
    fs::create_dir(rt, top.as_str())?;
    fs::create_dir(rt, top.join(rt.alloc(), "5.nxt")?.as_str())?;
    symlink(rt, "05.nxt", top.join(rt.alloc(), "6.nxt")?.as_str())?;
    symlink(rt, "missing", top.join(rt.alloc(), "7.nxt")?.as_str())?;
    for name in FOREIGN_NAMES {
        fs::write(rt, top.join(rt.alloc(), name)?.as_str(), b"x")?;
    }
    Ok(())
}

// Whether the links are still there, and what they name is as it was.
fn links_are_as_before(rt: &HostRuntime, top: &PathBuf) -> Result<bool, Fail> {
    let to_file = fs::symlink_metadata(rt, top.join(rt.alloc(), "6.nxt")?.as_str())?;
    let to_nothing = fs::symlink_metadata(rt, top.join(rt.alloc(), "7.nxt")?.as_str())?;
    let linked = fs::read(rt, top.join(rt.alloc(), "05.nxt")?.as_str())?;
    let made = fs::exists(rt, top.join(rt.alloc(), "missing")?.as_str())?;
    Ok(
        to_file.is_symlink()
            && to_nothing.is_symlink()
            && linked.as_slice() == b"x".as_slice()
            && !made,
    )
}

#[test]
fn foreign_names_are_no_files(rt: HostRuntime) -> Result<(), Fail> {
    let top = fresh_folder(&rt, "foreign")?;
    make_foreign(&rt, &top)?;
    let calls = [
        Call::Next(0, None),
        Call::Write(9, 0, b"x"),
        Call::Next(0, Some(9)),
        Call::IsForeign(5),
        Call::IsForeign(6),
        Call::IsForeign(7),
        Call::Next(0, Some(9)),
    ];
    assert!(rt; all_answer_anew(&rt, top.as_str(), &calls)?);
    assert!(rt; links_are_as_before(&rt, &top)?);
    fs::remove_dir_all(&rt, top.as_str())?;
    Ok(())
}

// Whether no other store can have the folder, while this one has it and attaches it again.
fn excludes(rt: &HostRuntime, store: &mut impl Store, folder: &str) -> Result<bool, Failed> {
    store.attach(folder)?;
    let first = is_in_use(rt, folder);
    store.attach(folder)?;
    Ok(first && is_in_use(rt, folder))
}

fn is_in_use(rt: &HostRuntime, folder: &str) -> bool {
    let mut store = FolderStore::new(rt);
    let attached = store.attach(folder);
    let kind = store.failure().map(|error| error.kind());
    attached.is_err() && kind == Some(ErrorKind::WouldBlock)
}

fn excludes_anew(rt: &HostRuntime, folder: &str) -> Result<bool, Failed> {
    let mut store = FolderStore::new(rt);
    excludes(rt, &mut store, folder)
}

#[test]
fn folder_in_use_is_refused_until_it_is_let_go_of(rt: HostRuntime) -> Result<(), Fail> {
    let top = fresh_folder(&rt, "in-use")?;
    assert!(rt; excludes_anew(&rt, top.as_str())?);
    assert!(rt; !is_in_use(&rt, top.as_str()));
    fs::remove_dir_all(&rt, top.as_str())?;
    Ok(())
}
