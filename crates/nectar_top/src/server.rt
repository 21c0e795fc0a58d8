//! What serves a script: the reader of its commands, the session, and the room for a line of an answer.
ghost use Rattle.std.specs.Prelude.{◌≡◌, ℕ, ◌<◌, ◌≤◌, List, [], ◌++◌, length, take, drop, IfOk};
ghost use Rattle.std.specs.Prelude.{Option, IfErr, OnOk, OnErr, IsTrue, vec_capacity};
ghost use Rattle.std.specs.Io.KnownBytes.{IsAtEnd};
ghost use Rattle.outside_traits.specs.Counts.{Rose};
ghost use Rattle.outside_traits.specs.Calls.{Rises};
ghost use Rattle.script_text.specs.Answer.{IsNarrow};
ghost use Rattle.script_text.specs.Script.{IsWholeItem};
ghost use Rattle.folder.specs.Sound.{Care};
ghost use Rattle.nectar_top.specs.Crash.{Found};
ghost use Rattle.nectar_top.specs.Outside.{Outside, shown, faults, NoneFell};
ghost use Rattle.nectar_top.specs.Progress.{Performs, Breaks, Sends, Fails};
ghost use Rattle.nectar_top.specs.Refusals.{IsSparingItem, fault_in, RoseBy};
ghost use Rattle.nectar_top.specs.Run.{longest_script};
ghost use Rattle.nectar_top.specs.Summary.{summary_of};
ghost use Rattle.nectar_top.specs.Turns.{Serving, IsDoneWith, Ends, HasCause};
ghost use Rattle.script_text.specs.Reader as reader;
ghost use Rattle.session.specs.Machine.{Machine};
ghost use Rattle.session.specs.Standing.{Stands, HoldsJobs};

use crate::exit::Exit;
use crate::sending::{ROOM_LEN, send};
use crate::summary::Summary;
use outside_traits::{Failed, Sink, Store};
use rows_core::Memory;
use script_text::{Answer, Item, Lines};
use session::Session;
use std::alloc::Global;

/// What serves a script, command by command. Each call takes it by value, and gives it back where the run
/// goes on.
#[derive(Drop)]
pub struct Server {
    pub reader: Lines,
    pub session: Session,
    /// What the answers so far come to.
    pub summary: Summary,
    room: Vec<u8>,
    ghost roomy: { 131072 ≤ vec_capacity room },
}

impl Server {
    /// What serves a session's commands, in this room.
    pub fn new(room: Room, session: Session) -> Server
        ensures reader { result.reader ≡ room.reader }
        ensures session { result.session ≡ session }
        ensures summary { result.summary ≡ summary_of [] }
    {
        let Room { reader, line } = room;
        Server {
            reader,
            session,
            summary: Summary::new(),
            room: line,
        }
    }

    /// Takes a piece of the script that the source gave, and answers the commands that end in it.
    pub fn take<K: Sink, D: Store>(
        self,
        piece: &[u8],
        quiet: bool,
        sink: &mut K,
        store: &mut D,
    ) -> Result<Server, Exit>
        requires holds { HoldsJobs self.session }
        ensures holds { IfOk result (λ server. HoldsJobs server.session) }
        ensures ok { IsTrue D.tells → IfOk result (λ server. (found : Found) (origin : D)
            (served : List ℕ) (begun : Outside) (left : Option (List ℕ))
            → Serving found (D.view origin) (D.view store.old) self.reader self.session self.summary served piece.now begun
            (shown quiet left (K.written sink.old) (D.counts store.old))
            → Serving found (D.view origin) (D.view store.new) server.reader server.session server.summary
            (served ++ piece.now) [] begun (shown quiet left (K.written sink.new) (D.counts store.new))) }
        ensures err { IsTrue D.tells → IfErr result (λ exit. (found : Found) (origin : D)
            (served : List ℕ) (begun : Outside) (left : Option (List ℕ))
            → Serving found (D.view origin) (D.view store.old) self.reader self.session self.summary served piece.now begun
            (shown quiet left (K.written sink.old) (D.counts store.old))
            → length (served ++ piece.now) ≤ longest_script
            → Ends found (D.view origin) (D.view store.new) exit begun
            (shown quiet left (K.written sink.new) (D.counts store.new))) }
        ensures cause { IfErr result (λ exit. (source : ℕ)
            → HasCause exit (faults source (K.faults sink.old) (D.counts store.old))
            (faults source (K.faults sink.new) (D.counts store.new))) }
        ensures no_fault { OnOk result ((D.counts store.new).writes ≡ (D.counts store.old).writes) }
        ensures counts { (source : ℕ) → NoneFell (faults source (K.faults sink.old) (D.counts store.old))
            (faults source (K.faults sink.new) (D.counts store.new)) }
    {
        let mut server = self;
        let mut at = 0;
        while at < piece.len() {
            match server.take_command(&piece[at..], quiet, sink, store) {
                Ok((next, count)) => {
                    server = next;
                    at += count;
                }
                Err(exit) => return Err(exit),
            }
        }
        Ok(server)
    }

    /// The script ends here: answers the command that it leaves unfinished. Gives what all answers come to.
    pub fn end<K: Sink, D: Store>(
        self,
        quiet: bool,
        sink: &mut K,
        store: &mut D,
    ) -> Result<Summary, Exit>
        requires holds { HoldsJobs self.session }
        ensures done { IsTrue D.tells → IfOk result (λ summary. (found : Found) (origin : D)
            (served : List ℕ) (begun : Outside) (left : Option (List ℕ))
            → Serving found (D.view origin) (D.view store.old) self.reader self.session self.summary served [] begun
            (shown quiet left (K.written sink.old) (D.counts store.old))
            → IsAtEnd left → length served ≤ longest_script
            → IsDoneWith found (D.view origin) (D.view store.new) summary begun
            (shown quiet left (K.written sink.new) (D.counts store.new))) }
        ensures err { IsTrue D.tells → IfErr result (λ exit. (found : Found) (origin : D)
            (served : List ℕ) (begun : Outside) (left : Option (List ℕ))
            → Serving found (D.view origin) (D.view store.old) self.reader self.session self.summary served [] begun
            (shown quiet left (K.written sink.old) (D.counts store.old))
            → IsAtEnd left → length served ≤ longest_script
            → Ends found (D.view origin) (D.view store.new) exit begun
            (shown quiet left (K.written sink.new) (D.counts store.new))) }
        ensures cause { IfErr result (λ exit. (source : ℕ)
            → HasCause exit (faults source (K.faults sink.old) (D.counts store.old))
            (faults source (K.faults sink.new) (D.counts store.new))) }
        ensures no_fault { OnOk result ((D.counts store.new).writes ≡ (D.counts store.old).writes) }
    {
        let Server {
            reader,
            session,
            summary,
            mut room,
        } = self;
        match reader.finish() {
            Some(item) => match answer(session, summary, item, quiet, &mut room, sink, store) {
                Ok((_, summary)) => Ok(summary),
                Err(exit) => Err(exit),
            },
            None => Ok(summary),
        }
    }

    // Takes bytes up to the end of the first command, which it answers, or all of them, and says how many.
    fn take_command<K: Sink, D: Store>(
        self,
        piece: &[u8],
        quiet: bool,
        sink: &mut K,
        store: &mut D,
    ) -> Result<(Server, usize), Exit>
        requires some { 0 < length piece.now }
        requires holds { HoldsJobs self.session }
        ensures holds { IfOk result (λ next. HoldsJobs next.0.session) }
        ensures bound { IfOk result (λ next. (0 < next.1) × (next.1 ≤ length piece.now)) }
        ensures ok { IsTrue D.tells → IfOk result (λ next. (found : Found) (origin : D)
            (served : List ℕ) (begun : Outside) (left : Option (List ℕ))
            → Serving found (D.view origin) (D.view store.old) self.reader self.session self.summary served piece.now begun
            (shown quiet left (K.written sink.old) (D.counts store.old))
            → Serving found (D.view origin) (D.view store.new) next.0.reader next.0.session next.0.summary
            (served ++ take next.1 piece.now) (drop next.1 piece.now) begun
            (shown quiet left (K.written sink.new) (D.counts store.new))) }
        ensures err { IsTrue D.tells → IfErr result (λ exit. (found : Found) (origin : D)
            (served : List ℕ) (begun : Outside) (left : Option (List ℕ))
            → Serving found (D.view origin) (D.view store.old) self.reader self.session self.summary served piece.now begun
            (shown quiet left (K.written sink.old) (D.counts store.old))
            → length (served ++ piece.now) ≤ longest_script
            → Ends found (D.view origin) (D.view store.new) exit begun
            (shown quiet left (K.written sink.new) (D.counts store.new))) }
        ensures cause { IfErr result (λ exit. (source : ℕ)
            → HasCause exit (faults source (K.faults sink.old) (D.counts store.old))
            (faults source (K.faults sink.new) (D.counts store.new))) }
        ensures no_fault { OnOk result ((D.counts store.new).writes ≡ (D.counts store.old).writes) }
        ensures counts { (source : ℕ) → NoneFell (faults source (K.faults sink.old) (D.counts store.old))
            (faults source (K.faults sink.new) (D.counts store.new)) }
    {
        let Server {
            mut reader,
            session,
            summary,
            mut room,
        } = self;
        let (count, item) = reader.take(piece);
        match item {
            None => {
                let server = Server {
                    reader,
                    session,
                    summary,
                    room,
                };
                Ok((server, count))
            }
            Some(item) => match answer(session, summary, item, quiet, &mut room, sink, store) {
                Ok((session, summary)) => {
                    let server = Server {
                        reader,
                        session,
                        summary,
                        room,
                    };
                    Ok((server, count))
                }
                Err(exit) => Err(exit),
            },
        }
    }
}

/// All the memory that answers will need, and the reader of commands.
#[derive(Drop)]
pub struct Room {
    pub reader: Lines,
    line: Vec<u8>,
    ghost roomy: { 131072 ≤ vec_capacity line },
}

impl Room {
    /// The room of a run that begins.
    pub fn new(alloc: Global) -> Result<Room, Memory>
        ensures { IfOk result (λ room. reader.Stands room.reader []) }
    {
        Ok(Room {
            reader: Lines::new(alloc)?,
            line: Vec::with_capacity(alloc, ROOM_LEN)?,
        })
    }
}

// Performs a command, sends its answer, and counts it.
fn answer<K: Sink, D: Store>(
    session: Session,
    summary: Summary,
    item: Item,
    quiet: bool,
    room: &mut Vec<u8>,
    sink: &mut K,
    store: &mut D,
) -> Result<(Session, Summary), Exit>
    requires room { 131072 ≤ vec_capacity room.old }
    requires whole { IsWholeItem item }
    requires holds { HoldsJobs session }
    ensures holds { IfOk result (λ next. HoldsJobs next.0) }
    ensures room { vec_capacity room.old ≤ vec_capacity room.new }
    ensures ok { IsTrue D.tells → IfOk result (λ next. (care : Care) (old : Machine)
        (left : Option (List ℕ)) → Stands care (D.view store.old) session old
        → Sends care (D.view store.old) (D.view store.new) old item next.0 summary next.1
        (shown quiet left (K.written sink.old) (D.counts store.old))
        (shown quiet left (K.written sink.new) (D.counts store.new))) }
    ensures err { IsTrue D.tells → IfErr result (λ exit. (care : Care) (old : Machine)
        (left : Option (List ℕ)) → Stands care (D.view store.old) session old
        → Fails exit care (D.view store.old) (D.view store.new) old item
        (shown quiet left (K.written sink.old) (D.counts store.old))
        (shown quiet left (K.written sink.new) (D.counts store.new))) }
    ensures cause { IfErr result (λ exit. (source : ℕ)
        → HasCause exit (faults source (K.faults sink.old) (D.counts store.old))
        (faults source (K.faults sink.new) (D.counts store.new))) }
    ensures no_fault { OnOk result ((D.counts store.new).writes ≡ (D.counts store.old).writes) }
    ensures counts { (source : ℕ) → NoneFell (faults source (K.faults sink.old) (D.counts store.old))
        (faults source (K.faults sink.new) (D.counts store.new)) }
{
    match perform(session, item, store) {
        Ok((session, answer)) => match send(&answer, quiet, room, sink) {
            Ok(()) => Ok((session, summary.with(&answer))),
            Err(Failed) => Err(Exit::SinkFault),
        },
        Err(Failed) => Err(Exit::StoreFault),
    }
}

// What a command is answered, and the session after it.
fn perform<D: Store>(
    session: Session,
    item: Item,
    store: &mut D,
) -> Result<(Session, Answer), Failed>
    requires whole { IsWholeItem item }
    requires holds { HoldsJobs session }
    ensures holds { IfOk result (λ next. HoldsJobs next.0) }
    ensures ok { IsTrue D.tells → (care : Care) (old : Machine) → Stands care (D.view store.old) session old
        → IfOk result (λ next. Performs care (D.view store.old) (D.view store.new) old item next.0 next.1
        (D.counts store.old) (D.counts store.new)) }
    ensures err { IsTrue D.tells → (care : Care) (old : Machine) → Stands care (D.view store.old) session old
        → OnErr result (Breaks care (D.view store.old) (D.view store.new) old item
        (D.counts store.old) (D.counts store.new)) }
    ensures narrow { IfOk result (λ next. IsNarrow next.1) }
    ensures cause { OnErr result (Rose (D.counts store.old).writes (D.counts store.new).writes) }
    ensures no_fault { OnOk result ((D.counts store.new).writes ≡ (D.counts store.old).writes) }
    ensures faults { IsSparingItem item → IfOk result
        (λ next. RoseBy (fault_in next.1) (D.counts store.old).reads (D.counts store.new).reads) }
    ensures looks { OnErr result ((D.counts store.new).reads ≡ (D.counts store.old).reads) }
    ensures counts { Rises (D.counts store.old) (D.counts store.new) }
{
    match item {
        Item::Command(command) => session.step(store, command),
        Item::Refused(refusal) => Ok((session, Answer::Refused(refusal))),
    }
}
