//! A real folder, some files of which are kept open.
ghost use Rattle.std.specs.Prelude.{◌≡◌, ◌↔◌, ◌<◌, ◌≤◌, ◌^◌, ◌++◌, ℕ, length, decimal, codes, IsTrue, IfOk};
ghost use Rattle.std.specs.Prelude.{IfSome, vec_len};

use crate::attached::Attached;
use crate::patience::uninterrupted;
use crate::regular::{Access, find_regular, make_regular, open_regular};
use itoa::Buffer;
use std::fs::{DirEntry, File};
use std::io::ErrorKind;
use std::os::unix::fs::FileExt;
use std::rt::Files;
use std::{fs, io};

/// The most files that are kept open.
const MAX_OPEN: usize = 16;

/// A folder: file n is `n.nxt`, n in decimal without leading zeros, and other names aren't looked at. A link
/// or a folder in it with such a name is no file: it isn't listed, calls on its number are errors, and
/// nothing removes it.
#[derive(Drop)]
pub struct Folder<'a, R> {
    runtime: &'a R,
    attached: Option<Attached>,
    open: Vec<OpenFile>,
    /// The numbers of the files that are there, ascending. None until they are asked for.
    numbers: Option<Vec<u64>>,
    /// Whether no file was made or removed since the folder's names were made stable.
    names_are_stable: bool,
}

#[derive(Drop)]
struct OpenFile {
    number: u64,
    file: File,
    /// Whether it was opened for reading alone.
    is_read_only: bool,
}

impl<'a, R: AllocGlobal + Files<File = File>> Folder<'a, R> {
    /// No folder is in use until `attach`, and each other call before it is an error.
    pub fn new(runtime: &'a R) -> Folder<'a, R> {
        Folder {
            runtime,
            attached: None,
            open: Vec::new(runtime.alloc()),
            numbers: None,
            names_are_stable: false,
        }
    }

    /// Makes the folder and its missing parents, and uses it in place of any other: no other process can use
    /// it as long. Its name is stable then.
    pub fn attach(&mut self, folder: &str) -> io::Result<()> {
        self.attached = None;
        self.open.clear();
        self.numbers = None;
        self.names_are_stable = false;
        self.attached = Some(Attached::new(self.runtime, folder)?);
        Ok(())
    }

    /// The file's length, 0 where it isn't there.
    pub fn size(&mut self, number: u64) -> io::Result<u64> {
        match self.place(number, Access::Read)? {
            Some(place) => len_of(&self.open[place].file),
            None => Ok(0),
        }
    }

    /// Fills the buffer from the file's bytes from `at` on, as far as there are any, and says how many.
    pub fn read(&mut self, number: u64, at: u64, buf: &mut [u8]) -> io::Result<usize>
        ensures { IfOk result (λ count. count ≤ length buf.new) }
    {
        match self.place(number, Access::Read)? {
            Some(place) => read_full_at(&self.open[place].file, at, buf),
            None => Ok(0),
        }
    }

    /// Writes the bytes at `at`, and makes the file where it isn't there. No bytes make a shorter file that
    /// long too.
    pub fn write(&mut self, number: u64, at: u64, bytes: &[u8]) -> io::Result<()> {
        match self.place(number, Access::Make)? {
            Some(place) if bytes.is_empty() => lengthen_shorter(&self.open[place].file, at),
            Some(place) => self.open[place].file.write_all_at(bytes, at),
            None => Err(io::Error::from(ErrorKind::NotFound)),
        }
    }

    /// Cuts a longer file to this length.
    pub fn cut(&mut self, number: u64, len: u64) -> io::Result<()> {
        match self.place(number, Access::Change)? {
            Some(place) => cut_longer(&self.open[place].file, len),
            None => Ok(()),
        }
    }

    /// Makes the file stable, and the folder's names with it, where one was made or removed since they last
    /// were.
    pub fn sync(&mut self, number: u64) -> io::Result<()> {
        if let Some(place) = self.place(number, Access::Change)? {
            self.open[place].file.sync_all()?;
        }
        if self.names_are_stable {
            return Ok(());
        }
        self.sync_names()
    }

    fn sync_names(&mut self) -> io::Result<()> {
        match &self.attached {
            Some(attached) => attached.sync_names()?,
            None => return Err(no_folder()),
        }
        self.names_are_stable = true;
        Ok(())
    }

    /// Removes the file, if it is there.
    pub fn remove(&mut self, number: u64) -> io::Result<()> {
        self.open.retain(|open| open.number != number);
        let path = self.path_of(number)?;
        let found = find_regular(self.runtime, path.as_str())?;
        if found.is_some() {
            self.remove_found(path.as_str())?;
        }
        self.unlist(number);
        Ok(())
    }

    // Removes a file that was found. Where that fails, nothing is known of the names.
    fn remove_found(&mut self, path: &str) -> io::Result<()> {
        self.names_are_stable = false;
        match uninterrupted(|| fs::remove_file(self.runtime, path)) {
            Err(error) if error.kind() != ErrorKind::NotFound => {
                self.numbers = None;
                Err(error)
            }
            _ => Ok(()),
        }
    }

    fn path_of(&self, number: u64) -> io::Result<String> {
        match &self.attached {
            Some(attached) => {
                let folder = attached.path();
                Ok(format!(in self.runtime.alloc(); "{folder}/{number}.nxt")?)
            }
            None => Err(no_folder()),
        }
    }

    // The place of the file among the open ones. None where it isn't there and isn't to be made.
    fn place(&mut self, number: u64, access: Access) -> io::Result<Option<usize>>
        ensures { IfOk result (λ found. IfSome found (λ place. place < vec_len self.new.open)) }
    {
        if let Some(place) = place_of(&self.open, number, access) {
            return Ok(Some(place));
        }
        let path = self.path_of(number)?;
        let file = match find_regular(self.runtime, path.as_str())? {
            Some(found) => open_regular(self.runtime, path.as_str(), &found, access)?,
            None if access == Access::Make => self.make_file(number, path.as_str())?,
            None => return Ok(None),
        };
        Ok(Some(self.keep(OpenFile {
            number,
            file,
            is_read_only: access == Access::Read,
        })?))
    }

    // Makes the file, which isn't there.
    fn make_file(&mut self, number: u64, path: &str) -> io::Result<File> {
        self.names_are_stable = false;
        let file = make_regular(self.runtime, path)?;
        self.list(number);
        Ok(file)
    }

    // Keeps a file open, in place of one that was opened for reading alone, and says its place.
    fn keep(&mut self, file: OpenFile) -> io::Result<usize>
        ensures { IfOk result (λ place. place < vec_len self.new.open) }
    {
        self.open.retain(|open| open.number != file.number);
        if self.open.len() >= MAX_OPEN {
            self.open.remove(0);
        }
        self.open.push(file)?;
        Ok(self.open.len() - 1)
    }
}

impl<R> Folder<'_, R> {
    // The file is there: its number is kept, or all are forgotten where memory is refused.
    fn list(&mut self, number: u64)
        ensures { self.new.open ≡ self.old.open }
    {
        if let Some(numbers) = &mut self.numbers {
            let kept = match numbers.binary_search(&number) {
                Ok(_) => true,
                Err(place) => numbers.insert(place, number).is_ok(),
            };
            if !kept {
                self.numbers = None;
            }
        }
    }

    // The file isn't there.
    fn unlist(&mut self, number: u64) {
        if let Some(numbers) = &mut self.numbers {
            if let Ok(place) = numbers.binary_search(&number) {
                numbers.remove(place);
            }
        }
    }
}

impl<R: AllocGlobal + Files<File = File> + Clone + Drop> Folder<'_, R> {
    /// The least number of a file that is there, at or above `from`. The folder is listed at the first call
    /// alone.
    pub fn next_file(&mut self, from: u64) -> io::Result<Option<u64>>
        ensures { IfOk result (λ next. IfSome next (λ number. from ≤ number)) }
    {
        if let Some(numbers) = &self.numbers {
            return Ok(at_or_above(numbers, from));
        }
        let Some(attached) = &self.attached else {
            return Err(no_folder());
        };
        let (runtime, folder) = (self.runtime, attached.path());
        let numbers = uninterrupted(|| numbers_in(runtime, folder))?;
        let next = at_or_above(&numbers, from);
        self.numbers = Some(numbers);
        Ok(next)
    }
}

// The numbers of the files in a folder, ascending.
fn numbers_in<R: AllocGlobal + Files<File = File> + Clone + Drop>(
    runtime: &R,
    folder: &str,
) -> io::Result<Vec<u64>> {
    let mut numbers = Vec::new(runtime.alloc());
    for entry in fs::read_dir(runtime, folder)? {
        if let Some(number) = number_of_entry(entry)? {
            numbers.push(number)?;
        }
    }
    numbers.sort_unstable();
    Ok(numbers)
}

// The number of the regular file of an entry. None for a name that isn't UTF-8, another name, a link and a
// folder.
fn number_of_entry<R: Files + Drop>(entry: io::Result<DirEntry<R>>) -> io::Result<Option<u64>> {
    let entry = match entry {
        Ok(entry) => entry,
        Err(error) if error.kind() == ErrorKind::InvalidFilename => return Ok(None),
        Err(error) => return Err(error),
    };
    match number_of(entry.file_name()) {
        Some(number) if uninterrupted(|| entry.file_type())?.is_file() => Ok(Some(number)),
        _ => Ok(None),
    }
}

// The least of these ascending numbers at or above `from`.
fn at_or_above(numbers: &[u64], from: u64) -> Option<u64>
    ensures { IfSome result (λ number. from ≤ number) }
{
    let place = numbers.partition_point(|number| *number < from);
    match numbers.get(place) {
        Some(number) if from <= *number => Some(*number),
        _ => None,
    }
}

fn no_folder() -> io::Error {
    io::Error::from(ErrorKind::NotFound)
}

// The place of a file that is open for such an access.
fn place_of(open: &[OpenFile], number: u64, access: Access) -> Option<usize>
    ensures { IfSome result (λ place. place < length open.now) }
{
    open.iter().position(|open| open.number == number
        && (access == Access::Read || !open.is_read_only))
}

// Reads until the buffer is full or the file ends.
fn read_full_at(file: &File, at: u64, buf: &mut [u8]) -> io::Result<usize>
    ensures { IfOk result (λ count. count ≤ length buf.new) }
{
    let mut count = 0;
    for _ in 0..u64::MAX {
        if count >= buf.len() {
            break;
        }
        match file.read_at(&mut buf[count..], at.saturating_add(count as u64)) {
            Ok(0) => break,
            Ok(more) => count += more,
            Err(error) if error.kind() == ErrorKind::Interrupted => {}
            Err(error) => return Err(error),
        }
    }
    Ok(count)
}

fn len_of(file: &File) -> io::Result<u64> {
    Ok(uninterrupted(|| file.metadata())?.len())
}

// The system's write of no bytes leaves a file's length.
fn lengthen_shorter(file: &File, len: u64) -> io::Result<()> {
    if len_of(file)? < len {
        file.set_len(len)?;
    }
    Ok(())
}

fn cut_longer(file: &File, len: u64) -> io::Result<()> {
    if len_of(file)? > len {
        file.set_len(len)?;
    }
    Ok(())
}

// The number of the file with this name: None exactly where no file has it.
fn number_of(name: &str) -> Option<u64>
    ensures { (number : ℕ) → number < 2 ^ 64
        → ((result ≡ Some number) ↔ (name.now ≡ decimal number ++ codes ".nxt")) }
{
    let Some(digits) = name.strip_suffix(".nxt") else {
        return None;
    };
    match digits.parse::<u64>() {
        Ok(number) if is_decimal_of(number, digits) => Some(number),
        _ => None,
    }
}

// Whether these are the digits of the number, without leading zeros.
fn is_decimal_of(number: u64, digits: &str) -> bool
    ensures { IsTrue result ↔ (digits.now ≡ decimal number) }
{
    let mut buffer = Buffer::new();
    buffer.format(number).as_bytes() == digits.as_bytes()
}
