//! One file of a store in memory, with what a crash may leave of it.
ghost use Rattle.std.specs.Prelude.{◌≡◌, ℕ, ◌+◌, ◌^◌, ◌<◌, Bool, [], ◌∷◌, length, max, take, map, List};
ghost use Rattle.std.specs.Prelude.{Option, Some, IfOk, OnOk};
ghost use Rattle.outside_traits.specs.Calls.{overlaid};
ghost use Rattle.mem_outside.specs.Outcomes.{freed, freed_byte, settled, absent, written, shortened, synced};
ghost use Rattle.mem_outside.specs.Outcomes.{removed, kept, filled, first_or, left_of, stable_file};

use rows_core::Memory;
use std::alloc::Global;
use std::marker::Model;
use std::rc::Rc;

/// What a crash may leave of a file. Of the first bytes some are fixed and the others may be anything; all of
/// these are there, and any bytes may follow up to the greatest length.
#[derive(Drop)]
pub struct Loosened {
    fixed: Rc<Vec<Option<u8>>>,
    longest: u64,
}

impl Model for Loosened {
    ghost use Rattle.mem_outside.specs.Shown.{Loose};

    ghost Value = { Loose };

    ghost view = { λ l. record { fixed = l.fixed.value.items; longest = l.longest } };
}

/// A file as it reads, with what a crash may leave of it, and of removed files of its number. Copies share
/// their bytes, and so a copy costs a few pointers.
#[derive(Drop)]
pub struct FileState {
    number: u64,
    there: bool,
    bytes: Rc<Vec<u8>>,
    loose: Loosened,
    gone: Rc<Vec<Loosened>>,
}

impl Model for FileState {
    ghost use Rattle.mem_outside.specs.Shown.{Shown};

    ghost Value = { Shown };

    ghost view = { λ s. record {
      number = s.number;
      there = s.there;
      bytes = s.bytes.value.items;
      loose = s.loose;
      gone = s.gone.value.items;
    } };
}

impl Loosened {
    fn none(alloc: Global) -> Result<Loosened, Memory>
        ensures { IfOk result (λ loose. loose ≡ record { fixed = []; longest = 0 }) }
    {
        Ok(Loosened {
            fixed: Rc::new(alloc, Vec::new(alloc))?,
            longest: 0,
        })
    }

    // Nothing is loose.
    fn settled(alloc: Global, bytes: &[u8]) -> Result<Loosened, Memory>
        ensures { IfOk result (λ loose. loose ≡ settled bytes.now) }
    {
        Ok(Loosened {
            fixed: Rc::new(alloc, all_fixed(alloc, bytes)?)?,
            longest: bytes.len() as u64,
        })
    }

    pub fn try_copy(&self) -> Result<Loosened, Memory>
        ensures { IfOk result (λ copy. copy ≡ self.now) }
    {
        Ok(Loosened {
            fixed: self.fixed.clone()?,
            longest: self.longest,
        })
    }

    // One of the outcomes: of the least length or of the greatest, with one byte wherever any may stand.
    fn filled(&self, alloc: Global, greatest: bool, filler: u8) -> Result<Vec<u8>, Memory>
        ensures { IfOk result (λ bytes. bytes.items ≡ filled greatest filler self.now) }
    {
        let mut bytes: Vec<u8> = self
            .fixed
            .iter()
            .map(|byte| byte.unwrap_or(filler))
            .collect(alloc)?;
        if greatest {
            let more = (self.longest as usize).saturating_sub(self.fixed.len());
            let rest = vec![in alloc; filler; more]?;
            bytes.extend_from_slice(&rest)?;
        }
        Ok(bytes)
    }

    // Bytes from `at` on may be anything, and may be there.
    fn freed(&self, alloc: Global, at: u64, len: usize) -> Result<Loosened, Memory>
        requires { at + len < 2 ^ 64 }
        ensures { IfOk result
            (λ loose. loose ≡ record {
              fixed = freed at len self.now.fixed;
              longest = max self.now.longest (at + len);
            }) }
    {
        Ok(Loosened {
            fixed: Rc::new(alloc, freed(alloc, &self.fixed, at, len as u64)?)?,
            longest: self.longest.max(at + len as u64),
        })
    }
}

impl FileState {
    pub fn absent(alloc: Global, number: u64) -> Result<FileState, Memory>
        ensures { IfOk result (λ state. state ≡ absent number) }
    {
        Ok(FileState {
            number,
            there: false,
            bytes: Rc::new(alloc, Vec::new(alloc))?,
            loose: Loosened::none(alloc)?,
            gone: Rc::new(alloc, Vec::new(alloc))?,
        })
    }

    pub fn number(&self) -> u64
        ensures { result ≡ self.now.number }
    {
        self.number
    }

    pub fn is_there(&self) -> bool
        ensures { result ≡ self.now.there }
    {
        self.there
    }

    pub fn bytes(&self) -> &[u8]
        ensures { result.now ≡ self.now.bytes }
    {
        &self.bytes
    }

    /// A copy, with the removed files that may come back or without.
    pub fn try_copy(&self, alloc: Global, all: bool) -> Result<FileState, Memory>
        ensures { IfOk result (λ copy. copy ≡ kept all self.now) }
    {
        let gone = if all {
            self.gone.clone()?
        } else {
            Rc::new(alloc, Vec::new(alloc))?
        };
        Ok(FileState {
            number: self.number,
            there: self.there,
            bytes: self.bytes.clone()?,
            loose: self.loose.try_copy()?,
            gone,
        })
    }

    /// A file with these bytes, which are stable.
    pub fn stable(alloc: Global, number: u64, bytes: &[u8]) -> Result<FileState, Memory>
        ensures { IfOk result (λ state. state ≡ stable_file number bytes.now) }
    {
        Ok(FileState {
            number,
            there: true,
            bytes: Rc::new(alloc, Vec::from_slice(alloc, bytes)?)?,
            loose: Loosened::settled(alloc, bytes)?,
            gone: Rc::new(alloc, Vec::new(alloc))?,
        })
    }

    /// The file after a crash that leaves one of its outcomes, or one of the last file of its number that was
    /// removed.
    pub fn left(
        &self,
        alloc: Global,
        greatest: bool,
        filler: u8,
        removed_too: bool,
    ) -> Result<FileState, Memory>
        ensures { IfOk result (λ state. state ≡ left_of greatest filler removed_too self.now) }
    {
        let comes_back = removed_too && !self.gone.is_empty();
        let bytes = if removed_too {
            first_or(&self.gone, &self.loose).filled(alloc, greatest, filler)?
        } else {
            self.loose.filled(alloc, greatest, filler)?
        };
        Ok(FileState {
            number: self.number,
            there: self.there || comes_back,
            loose: Loosened::settled(alloc, &bytes)?,
            bytes: Rc::new(alloc, bytes)?,
            gone: Rc::new(alloc, Vec::new(alloc))?,
        })
    }

    /// After a write, or after one that failed: the file is there then too.
    pub fn written(
        self,
        alloc: Global,
        at: u64,
        bytes: &[u8],
        done: bool,
    ) -> Result<FileState, Memory>
        requires { at + length bytes.now < 2 ^ 64 }
        ensures { IfOk result (λ state. state ≡ written at bytes.now done self) }
    {
        let FileState {
            number,
            there: _,
            bytes: old,
            loose,
            gone,
        } = self;
        let loose = loose.freed(alloc, at, bytes.len())?;
        let bytes = if done {
            Rc::new(alloc, overlaid(alloc, &old, at as usize, bytes)?)?
        } else {
            old
        };
        Ok(FileState {
            number,
            there: true,
            bytes,
            loose,
            gone,
        })
    }

    /// After a cut, or after one that failed.
    pub fn shortened(self, alloc: Global, len: u64, done: bool) -> Result<FileState, Memory>
        ensures { IfOk result (λ state. state ≡ shortened len done self) }
    {
        let FileState {
            number,
            there,
            bytes: old,
            loose,
            gone,
        } = self;
        let fixed = front(alloc, &loose.fixed, len)?;
        let bytes = if done {
            Rc::new(alloc, front(alloc, &old, len)?)?
        } else {
            old
        };
        Ok(FileState {
            number,
            there,
            bytes,
            loose: Loosened {
                fixed: Rc::new(alloc, fixed)?,
                longest: loose.longest,
            },
            gone,
        })
    }

    /// After a sync.
    pub fn synced(self, alloc: Global) -> Result<FileState, Memory>
        ensures { IfOk result (λ state. state ≡ synced self) }
    {
        let loose = Loosened::settled(alloc, &self.bytes)?;
        Ok(FileState {
            number: self.number,
            there: self.there,
            bytes: self.bytes,
            loose,
            gone: Rc::new(alloc, Vec::new(alloc))?,
        })
    }

    /// After a removal.
    pub fn removed(self, alloc: Global) -> Result<FileState, Memory>
        ensures { IfOk result (λ state. state ≡ removed self) }
    {
        let FileState {
            number,
            there: _,
            bytes: _,
            loose,
            gone: before,
        } = self;
        let gone = pushed_in_front(alloc, loose, &before)?;
        Ok(FileState {
            number,
            there: false,
            bytes: Rc::new(alloc, Vec::new(alloc))?,
            loose: Loosened::none(alloc)?,
            gone: Rc::new(alloc, gone)?,
        })
    }
}

fn pushed_in_front(
    alloc: Global,
    loose: Loosened,
    gone: &[Loosened],
) -> Result<Vec<Loosened>, Memory>
    ensures { IfOk result (λ all. all.items ≡ loose ∷ gone.now) }
{
    let mut all = Vec::new(alloc);
    all.push(loose)?;
    for before in gone {
        all.push(before.try_copy()?)?;
    }
    Ok(all)
}

// The first items, or all where there are fewer.
fn front<T: Copy>(alloc: Global, items: &[T], len: u64) -> Result<Vec<T>, Memory>
    ensures { IfOk result (λ front. front.items ≡ take len items.now) }
{
    let len = items.len().min(len as usize);
    Ok(Vec::from_slice(alloc, &items[..len])?)
}

fn freed(alloc: Global, fixed: &[Option<u8>], at: u64, len: u64) -> Result<Vec<Option<u8>>, Memory>
    requires { at + len < 2 ^ 64 }
    ensures { IfOk result (λ out. out.items ≡ freed at len fixed.now) }
{
    let mut out = Vec::new(alloc);
    for (i, byte) in fixed.iter().enumerate() {
        out.push(freed_byte(at, len, i as u64, *byte))?;
    }
    Ok(out)
}

// The bytes with others written over them, and zero bytes in a gap.
#[tactic(auto, unfolding(outside_traits::specs::Calls::overlaid))]
fn overlaid(alloc: Global, old: &[u8], at: usize, bytes: &[u8]) -> Result<Vec<u8>, Memory>
    requires { at + length bytes.now < 2 ^ 64 }
    ensures { IfOk result (λ out. out.items ≡ overlaid old.now at bytes.now) }
{
    let mut out = Vec::from_slice(alloc, &old[..at.min(old.len())])?;
    while out.len() < at {
        out.push(0)?;
    }
    out.extend_from_slice(bytes)?;
    out.extend_from_slice(&old[(at + bytes.len()).min(old.len())..])?;
    Ok(out)
}

fn freed_byte(at: u64, len: u64, i: u64, byte: Option<u8>) -> Option<u8>
    requires { at + len < 2 ^ 64 }
    ensures { result ≡ freed_byte at len i byte }
{
    if at <= i && i < at + len { None } else { byte }
}

fn all_fixed(alloc: Global, bytes: &[u8]) -> Result<Vec<Option<u8>>, Memory>
    ensures { IfOk result (λ fixed. fixed.items ≡ map (λ b. Some b) bytes.now) }
{
    Ok(bytes.iter().map(|byte| Some(*byte)).collect(alloc)?)
}

fn first_or<'a>(gone: &'a [Loosened], loose: &'a Loosened) -> &'a Loosened
    ensures { result.now ≡ first_or gone.now loose.now }
{
    match gone {
        [first, ..] => first,
        [] => loose,
    }
}
