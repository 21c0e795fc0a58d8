//! What a catalogue holds, and which changes fit it. Limits that no log of a test comes near are left out.

use crate::plans::sized_plan;
use crate::reader::{MAX_WORD, Reader};
use crate::typing::{is_program, is_result};
use anyhow::Result;
use rows_core::Kind;
use std::alloc::Global;

const DIGEST_LEN: u64 = 32;

const MAX_COLUMNS: u64 = 32;

const MAX_EXTENT_LEN: u64 = 16_777_216;

const MAX_RESULT_LEN: u64 = 67_108_864;

/// The number behind the last file's.
const FILE_END: u64 = 4_294_967_296;

/// What the bodies so far make.
#[derive(Drop)]
pub struct Table<'a> {
    alloc: Global,
    /// The form of the log: 1, or 2 where columns may be truth values and a checkpoint has another tag.
    form: u64,
    tick: u64,
    next_file: u64,
    next_id: u64,
    streams: Vec<Stream<'a>>,
    /// The names of the programs.
    programs: Vec<&'a [u8]>,
    kept: Vec<Kept<'a>>,
    /// The files that were named.
    files: Vec<u64>,
    /// Whether each change fitted.
    fits: bool,
}

#[derive(Drop)]
pub struct Stream<'a> {
    pub name: &'a [u8],
    pub columns: Vec<(&'a [u8], Kind)>,
    /// How many extents it has.
    pub extents: u64,
}

/// A kept result.
#[derive(Clone, Copy)]
struct Kept<'a> {
    id: u64,
    /// The bytes of its plan.
    plan: &'a [u8],
    /// The bytes of its cuts, without their count.
    cuts: &'a [u8],
    uses: u64,
}

/// How much a catalogue holds.
#[derive(Clone, Copy, PartialEq, Eq)]
pub struct Held {
    pub tick: u64,
    pub next_file: u64,
    pub next_id: u64,
    pub streams: u64,
    pub extents: u64,
    pub programs: u64,
    pub results: u64,
    /// The uses of all results.
    pub uses: u64,
}

impl<'a> Table<'a> {
    pub fn new(alloc: Global, form: u64) -> Table<'a> {
        Table {
            alloc,
            form,
            tick: 0,
            next_file: 1,
            next_id: 1,
            streams: Vec::new(alloc),
            programs: Vec::new(alloc),
            kept: Vec::new(alloc),
            files: Vec::new(alloc),
            fits: true,
        }
    }

    pub fn held(&self) -> Held {
        let extents = self.streams.iter().map(|stream| stream.extents);
        let uses = self.kept.iter().map(|kept| kept.uses);
        Held {
            tick: self.tick,
            next_file: self.next_file,
            next_id: self.next_id,
            streams: self.streams.len() as u64,
            extents: extents.fold(0, u64::saturating_add),
            programs: self.programs.len() as u64,
            results: self.kept.len() as u64,
            uses: uses.fold(0, u64::saturating_add),
        }
    }

    /// Whether each change that was read fitted.
    pub fn fits(&self) -> bool {
        self.fits
    }

    fn ask(&mut self, fits: bool) {
        self.fits = self.fits && fits;
    }

    /// Reads a change and makes it. A checkpoint fits where it is due, and nothing else.
    pub fn read(&mut self, reader: &mut Reader<'a>, is_due: bool) -> Result<()> {
        let tag = reader.number(1, 1, 7);
        let is_checkpoint = tag == if self.form == 1 { 6 } else { 7 };
        self.ask(is_checkpoint == is_due);
        self.tick = self.tick.saturating_add(1);
        match tag {
            1 => self.stream(reader),
            2 => self.append(reader),
            3 => self.work(reader),
            4 => self.collect(reader),
            _ if is_checkpoint => self.checkpoint(reader),
            _ => {
                reader.stop_at(0);
                Ok(())
            }
        }
    }

    // A new stream without extents.
    fn stream(&mut self, reader: &mut Reader<'a>) -> Result<()> {
        let name = reader.name(b"");
        let is_new = self.streams.iter().all(|other| other.name != name);
        let count = reader.number(1, 0, 255);
        self.ask(is_new && (1..=MAX_COLUMNS).contains(&count));
        let mut columns: Vec<(&[u8], Kind)> = Vec::new(self.alloc);
        for _ in 0..count {
            let name = reader.name(b"");
            let kind = self.kind(reader);
            self.ask(columns.iter().all(|(other, _)| *other != name));
            columns.push((name, kind))?;
        }
        self.streams.push(Stream {
            name,
            columns,
            extents: 0,
        })?;
        Ok(())
    }

    fn kind(&self, reader: &mut Reader<'a>) -> Kind {
        let last = if self.form == 1 { 2 } else { 3 };
        match reader.number(1, 1, last) {
            1 => Kind::Int,
            2 => Kind::Text,
            _ => Kind::Bool,
        }
    }

    fn append(&mut self, reader: &mut Reader<'a>) -> Result<()> {
        let place = reader.word();
        let next = self.next_file;
        self.next_file = next.saturating_add(1);
        let file = self.extent(reader, place)?;
        self.ask(file == next);
        Ok(())
    }

    // An extent behind those of the stream in this place. Gives its file.
    fn extent(&mut self, reader: &mut Reader<'a>, place: u64) -> Result<u64> {
        let file = reader.word();
        let rows = reader.word();
        let len = reader.word();
        reader.taken(DIGEST_LEN);
        self.ask(rows > 0 && len <= MAX_EXTENT_LEN);
        self.files.push(file)?;
        match self.streams.get_mut(place as usize) {
            Some(stream) => stream.extents = stream.extents.saturating_add(1),
            None => self.ask(false),
        }
        Ok(file)
    }

    fn work(&mut self, reader: &mut Reader<'a>) -> Result<()> {
        if reader.number(1, 0, 1) == 1 {
            self.program(reader, b"")?;
        }
        let reads = self.ascending_ids(reader)?;
        let dropped = self.ascending_ids(reader)?;
        self.count_uses(&reads);
        self.let_go(&dropped);
        for _ in 0..reader.word() {
            if reader.is_stopped() {
                break;
            }
            self.new_result(reader)?;
        }
        Ok(())
    }

    // A program whose name isn't below another one. Gives the name.
    fn program(&mut self, reader: &mut Reader<'a>, other: &[u8]) -> Result<&'a [u8]> {
        let name = reader.name(other);
        let len = reader.word();
        let text = reader.taken(len);
        let cuts = reader.cuts();
        if !self.programs.contains(&name) {
            self.programs.push(name)?;
        }
        let fits = is_program(self.alloc, &self.streams, text, cuts)?;
        self.ask(fits);
        Ok(name)
    }

    fn collect(&mut self, reader: &mut Reader<'a>) -> Result<()> {
        let ids = self.ids(reader)?;
        self.let_go(&ids);
        Ok(())
    }

    // Ids of kept results, each once, in any order.
    fn ids(&mut self, reader: &mut Reader<'a>) -> Result<Vec<u64>> {
        let mut ids = Vec::new(self.alloc);
        for _ in 0..reader.word() {
            if reader.is_stopped() {
                break;
            }
            let id = reader.word();
            let is_there = self.kept.iter().any(|kept| kept.id == id);
            let is_new = !ids.contains(&id);
            self.ask(is_there && is_new);
            ids.push(id)?;
        }
        Ok(ids)
    }

    // Those that ascend.
    fn ascending_ids(&mut self, reader: &mut Reader<'a>) -> Result<Vec<u64>> {
        let ids = self.ids(reader)?;
        let mut last = 0;
        for id in &ids {
            self.ask(last < *id);
            last = *id;
        }
        Ok(ids)
    }

    fn count_uses(&mut self, ids: &[u64]) {
        for kept in &mut self.kept {
            if ids.contains(&kept.id) {
                kept.uses = kept.uses.saturating_add(1);
            }
        }
    }

    fn let_go(&mut self, ids: &[u64]) {
        self.kept.retain(|kept| !ids.contains(&kept.id));
    }

    fn new_result(&mut self, reader: &mut Reader<'a>) -> Result<()> {
        let (id, next) = (self.next_id, self.next_file);
        self.next_id = id.saturating_add(1);
        self.next_file = next.saturating_add(1);
        let file = self.result(reader, id)?;
        self.ask(file == next);
        Ok(())
    }

    // A result with this id, which was used once. Gives its file.
    fn result(&mut self, reader: &mut Reader<'a>, id: u64) -> Result<u64> {
        let plan = sized_plan(reader);
        let cuts = reader.cuts();
        let file = reader.word();
        let len = reader.word();
        reader.taken(DIGEST_LEN);
        let machine = reader.word();
        self.ask(machine > 0 && len <= MAX_RESULT_LEN);
        let mut others = self.kept.iter();
        let is_new = others.all(|other| other.plan != plan || other.cuts != cuts);
        let is_result = is_result(self.alloc, &self.streams, plan, cuts)?;
        self.ask(is_new && is_result);
        self.kept.push(Kept {
            id,
            plan,
            cuts,
            uses: 1,
        })?;
        self.files.push(file)?;
        Ok(file)
    }

    // All that a catalogue holds.
    fn checkpoint(&mut self, reader: &mut Reader<'a>) -> Result<()> {
        self.tick = reader.word();
        self.next_file = reader.number(8, 0, u64::MAX);
        self.next_id = reader.number(8, 0, u64::MAX);
        let next_file = self.next_file;
        self.ask((1..=FILE_END).contains(&next_file));
        let next_id = self.next_id;
        self.ask((1..=next_file).contains(&next_id));
        for place in 0..reader.word() {
            if reader.is_stopped() {
                break;
            }
            self.stream(reader)?;
            self.extents(reader, place)?;
        }
        self.programs(reader)?;
        self.results(reader)?;
        self.files.sort()?;
        let have_own_files = self.have_own_files();
        self.ask(have_own_files);
        Ok(())
    }

    // Whether the files, which are sorted, differ, and each was given.
    fn have_own_files(&self) -> bool {
        let mut last = 0;
        for file in &self.files {
            if *file <= last || self.next_file <= *file {
                return false;
            }
            last = *file;
        }
        true
    }

    fn extents(&mut self, reader: &mut Reader<'a>, place: u64) -> Result<()> {
        for _ in 0..reader.word() {
            if reader.is_stopped() {
                break;
            }
            self.extent(reader, place)?;
        }
        Ok(())
    }

    // Programs, of whose names none is below the one before; each is above it.
    fn programs(&mut self, reader: &mut Reader<'a>) -> Result<()> {
        let mut last: &[u8] = b"";
        for _ in 0..reader.word() {
            if reader.is_stopped() {
                break;
            }
            let name = self.program(reader, last)?;
            self.ask(last < name);
            last = name;
        }
        Ok(())
    }

    // Results, of whose ids none is below the one before; each is above it and below the next one, and was used,
    // the last time at or before the tick and not before it was made.
    fn results(&mut self, reader: &mut Reader<'a>) -> Result<()> {
        let mut last = 0;
        for _ in 0..reader.word() {
            if reader.is_stopped() {
                break;
            }
            let id = reader.number(4, last, MAX_WORD);
            self.ask(last < id && id < self.next_id);
            self.result(reader, id)?;
            self.uses(reader);
            last = id;
        }
        Ok(())
    }

    // The uses of the last result.
    fn uses(&mut self, reader: &mut Reader<'a>) {
        let uses = reader.word();
        let last = reader.word();
        let made = reader.word();
        self.ask(uses > 0 && made <= last && last <= self.tick);
        if let Some(kept) = self.kept.last_mut() {
            kept.uses = uses;
        }
    }
}
