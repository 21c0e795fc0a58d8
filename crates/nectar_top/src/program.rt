//! The whole program as one call.
ghost use Rattle.std.specs.Prelude.{◌≡◌, ◌⊎◌, ℕ, ◌+◌, ◌<◌, ◌≤◌, Bool, List, ◌++◌, [], length, IfOk, IfErr};
ghost use Rattle.std.specs.Prelude.{IsTrue, IsErrOf, OnOk, Option, Some, None, IsSome};
ghost use Rattle.std.specs.Io.KnownBytes.{IsAtEnd};
ghost use Rattle.clap.specs.Walk.{texts};
ghost use Rattle.command_words.specs.Told.{told};
ghost use Rattle.outside_traits.specs.Counts.{Rose};
ghost use Rattle.outside_traits.specs.Calls.{Rises};
ghost use Rattle.outside_traits.specs.Runs.{Narrows};
ghost use Rattle.script_text.specs.Reader as reader;
ghost use Rattle.folder.specs.InUse.{IsLoadedAsItIs};
ghost use Rattle.folder.specs.Unnamed.{ChangesUnnamed};
ghost use Rattle.folder.specs.Left.{IsLeft, Since};
ghost use Rattle.folder.specs.Replay.{StopsReading};
ghost use Rattle.folder.specs.Sound.{Whole};
ghost use Rattle.folder.specs.State.{State};
ghost use Rattle.session.specs.Machine.{without_jobs};
ghost use Rattle.session.specs.Standing.{Stands, HoldsJobs};
ghost use Rattle.nectar_top.specs.Crash.{Found};
ghost use Rattle.nectar_top.specs.Exits.{EndsBy, EndsFor, EndsOfScript, EndsOfGenerated, Generates};
ghost use Rattle.nectar_top.specs.Exits.{CompletesBy, CompletesFor, IsOfGenerated};
ghost use Rattle.nectar_top.specs.Loading.{HasLoadingCause, WereNotTaken, exit_of};
ghost use Rattle.nectar_top.specs.Outside.{Outside, shown, faults, NoneFell, NoneFailed};
ghost use Rattle.nectar_top.specs.Run.{longest_script, IsShortScript, IsUnloaded};
ghost use Rattle.nectar_top.specs.Turns.{Serving, IsDoneWith, Ends, HasCause};

use crate::exit::Exit;
use crate::generated::{Discard, ScriptBytes};
use crate::sending::send_summary;
use crate::server::{Room, Server};
use crate::summary::Summary;
use command_words::{Words, read_words};
use outside_traits::{Failed, Sink, Source, Store};
use rows_core::Memory;
use session::{LoadRefusal, Session};
use std::alloc::Global;
use workload_gen::script_of;

/// The most bytes of a script.
const MAX_SCRIPT_LEN: usize = 1_073_741_824;

/// The most bytes of one read.
const PIECE_LEN: usize = 65_536;

/// Runs the program on the words of the command line, without its own name. The words are
/// `FOLDER [--quiet] [--generate NUMBER]`. The script comes from the source, and each command's answer goes to
/// the sink before the next command is performed; with `--quiet` the row lines of answers are left out. With
/// `--generate` the generated script of that number is run in place of the source's, and what its answers
/// come to is written at the end, and nothing else.
///
/// The folder is attached and loaded first. What a crash leaves is said of a folder that was left by such a
/// run: each crash, at any moment, leaves the state after a prefix of the commands, and at each exit the
/// folder is left so that every command whose answer began to be written is kept. Jobs end with the run: no
/// crash and no exit leaves one. The files of kept results that its collections evicted are gone at each
/// exit, unless a removal failed.
pub fn nectar<'a, S: Source, K: Sink, D: Store>(
    alloc: Global,
    words: &'a [&'a str],
    source: &mut S,
    sink: &mut K,
    store: &mut D,
) -> Exit
    // Words that aren't accepted end the run before anything is touched, unless memory is wanted first.
    ensures usage { result ≡ Exit.Usage → told (texts words.now) ≡ None }
    ensures not_accepted { told (texts words.now) ≡ None → (result ≡ Exit.Usage) ⊎ (result ≡ Exit.Memory) }
    ensures usage_store { result ≡ Exit.Usage → store.new ≡ store.old }
    // Where no command is taken, nothing is read of the script or written; a generated script leaves the
    // source alone.
    ensures untouched { WereNotTaken result → (source.new ≡ source.old) × (sink.new ≡ sink.old) }
    ensures generated { Generates (told (texts words.now)) → source.new ≡ source.old }

    // What was answered and written at each exit, and what the folder is left with.
    ensures ends { IsTrue D.tells → (found : Found)
        → IsLeft found.care (D.view store.old) found.first found.other
        → EndsBy (told (texts words.now)) found (D.view store.old) (D.view store.new) result
        (λ quiet. shown quiet (S.left source.old) (K.written sink.old) (D.counts store.old))
        (λ quiet. shown quiet (S.left source.new) (K.written sink.new) (D.counts store.new)) }

    // An exit that tells a failed call comes only where one has failed: `StoreFault` where a write, cut or
    // sync did, or, before the first command, a read.
    ensures source_cause { result ≡ Exit.SourceFault → Rose (S.faults source.old) (S.faults source.new) }
    ensures sink_cause { result ≡ Exit.SinkFault → Rose (K.faults sink.old) (K.faults sink.new) }
    ensures store_cause { result ≡ Exit.StoreFault
        → Rose (D.counts store.old).writes (D.counts store.new).writes
        ⊎ ((source.new ≡ source.old) × (sink.new ≡ sink.old)
        × Rose (D.counts store.old).reads (D.counts store.new).reads) }

    // A failed write, cut or sync ends the run in `StoreFault`: where it took commands and ends otherwise,
    // none has failed.
    ensures no_store_fault { (WereNotTaken result → ⊥) → (result ≡ Exit.StoreFault → ⊥)
        → (D.counts store.new).writes ≡ (D.counts store.old).writes }

    // Over a folder of one state whose files hold their bytes, where no call fails and the source's script
    // has no more bytes than the limit, the run is done, and no answer is laid to the store; or memory was
    // refused.
    ensures complete { IsTrue D.tells → (s : State) (input : List ℕ)
        → IsLeft Whole (D.view store.old) s s
        → (Generates (told (texts words.now)) ⊎ IsShortScript (S.left source.old) input)
        → NoneFailed (faults (S.faults source.old) (K.faults sink.old) (D.counts store.old))
        (faults (S.faults source.new) (K.faults sink.new) (D.counts store.new))
        → CompletesBy (told (texts words.now)) s (D.view store.old) (D.view store.new) result
        (λ quiet. shown quiet (S.left source.old) (K.written sink.old) (D.counts store.old))
        (λ quiet. shown quiet (S.left source.new) (K.written sink.new) (D.counts store.new)) }

    // A run that takes no command changes only files that the folder doesn't name, where its making is finished
    // and its log isn't long.
    ensures finished { IsTrue D.tells → IsLoadedAsItIs (D.view store.old).files
        → WereNotTaken result → ChangesUnnamed (D.view store.old) (D.view store.new) }

    // Reading the log files stops there, and no file is changed; and where it stops the run ends so, but for
    // a fault of the store or want of memory.
    ensures not_a_store { IsTrue D.tells → (file at : ℕ) → result ≡ Exit.NotAStore file at
        → StopsReading (D.view store.old).files file at × Narrows (D.view store.old) (D.view store.new) }
    ensures stopped { IsTrue D.tells → (file at : ℕ) → IsSome (told (texts words.now))
        → StopsReading (D.view store.old).files file at
        → (result ≡ Exit.NotAStore file at) ⊎ ((result ≡ Exit.StoreFault) ⊎ (result ≡ Exit.Memory)) }
{
    match read_words(alloc, words) {
        Ok(Some(words)) => run(alloc, &words, source, sink, store),
        Ok(None) => Exit::Usage,
        Err(Memory) => Exit::Memory,
    }
}

// Runs the script that the words ask for.
fn run<S: Source, K: Sink, D: Store>(
    alloc: Global,
    words: &Words,
    source: &mut S,
    sink: &mut K,
    store: &mut D,
) -> Exit
    ensures not_usage { result ≡ Exit.Usage → ⊥ }
    ensures untouched { WereNotTaken result → (source.new ≡ source.old) × (sink.new ≡ sink.old) }
    ensures generated { IsSome words.now.generate → source.new ≡ source.old }
    ensures ends { IsTrue D.tells → (found : Found)
        → IsLeft found.care (D.view store.old) found.first found.other
        → EndsFor words.now.generate found (D.view store.old) (D.view store.new) result
        (shown words.now.quiet (S.left source.old) (K.written sink.old) (D.counts store.old))
        (shown words.now.quiet (S.left source.new) (K.written sink.new) (D.counts store.new)) }
    ensures source_cause { result ≡ Exit.SourceFault → Rose (S.faults source.old) (S.faults source.new) }
    ensures sink_cause { result ≡ Exit.SinkFault → Rose (K.faults sink.old) (K.faults sink.new) }
    ensures store_cause { result ≡ Exit.StoreFault
        → Rose (D.counts store.old).writes (D.counts store.new).writes
        ⊎ ((source.new ≡ source.old) × (sink.new ≡ sink.old)
        × Rose (D.counts store.old).reads (D.counts store.new).reads) }
    ensures no_store_fault { (WereNotTaken result → ⊥) → (result ≡ Exit.StoreFault → ⊥)
        → (D.counts store.new).writes ≡ (D.counts store.old).writes }
    ensures complete { IsTrue D.tells → (s : State) (input : List ℕ)
        → IsLeft Whole (D.view store.old) s s
        → (IsSome words.now.generate ⊎ IsShortScript (S.left source.old) input)
        → NoneFailed (faults (S.faults source.old) (K.faults sink.old) (D.counts store.old))
        (faults (S.faults source.new) (K.faults sink.new) (D.counts store.new))
        → CompletesFor words.now.generate s (D.view store.old) (D.view store.new) result
        (shown words.now.quiet (S.left source.old) (K.written sink.old) (D.counts store.old))
        (shown words.now.quiet (S.left source.new) (K.written sink.new) (D.counts store.new)) }
    ensures finished { IsTrue D.tells → IsLoadedAsItIs (D.view store.old).files
        → WereNotTaken result → ChangesUnnamed (D.view store.old) (D.view store.new) }
    ensures not_a_store { IsTrue D.tells → (file at : ℕ) → result ≡ Exit.NotAStore file at
        → StopsReading (D.view store.old).files file at × Narrows (D.view store.old) (D.view store.new) }
    ensures stopped { IsTrue D.tells → (file at : ℕ) → StopsReading (D.view store.old).files file at
        → (result ≡ Exit.NotAStore file at) ⊎ ((result ≡ Exit.StoreFault) ⊎ (result ≡ Exit.Memory)) }
{
    match words.generate {
        Some(number) => run_generated(alloc, words.folder, number, sink, store),
        None => match answer_script(alloc, words.folder, words.quiet, source, sink, store) {
            Ok(_) => Exit::Done,
            Err(exit) => exit,
        },
    }
}

// Runs the generated script of this number, lets go of its answers, and writes what they come to.
fn run_generated<K: Sink, D: Store>(
    alloc: Global,
    folder: &str,
    number: u64,
    sink: &mut K,
    store: &mut D,
) -> Exit
    ensures exits { IsOfGenerated result }
    ensures untouched { WereNotTaken result → sink.new ≡ sink.old }
    ensures ends { IsTrue D.tells → (found : Found)
        → IsLeft found.care (D.view store.old) found.first found.other
        → (quiet : Bool) (left : Option (List ℕ))
        → EndsOfGenerated number found (D.view store.old) (D.view store.new) result
        (shown quiet left (K.written sink.old) (D.counts store.old))
        (shown quiet left (K.written sink.new) (D.counts store.new)) }
    ensures sink_cause { result ≡ Exit.SinkFault → Rose (K.faults sink.old) (K.faults sink.new) }
    ensures store_cause { result ≡ Exit.StoreFault
        → Rose (D.counts store.old).writes (D.counts store.new).writes
        ⊎ ((sink.new ≡ sink.old) × Rose (D.counts store.old).reads (D.counts store.new).reads) }
    ensures no_store_fault { (WereNotTaken result → ⊥) → (result ≡ Exit.StoreFault → ⊥)
        → (D.counts store.new).writes ≡ (D.counts store.old).writes }
    ensures complete { IsTrue D.tells → (s : State)
        → IsLeft Whole (D.view store.old) s s
        → (source : ℕ) → NoneFailed (faults source (K.faults sink.old) (D.counts store.old))
        (faults source (K.faults sink.new) (D.counts store.new))
        → (quiet : Bool) (left : Option (List ℕ))
        → CompletesFor (Some number) s (D.view store.old) (D.view store.new) result
        (shown quiet left (K.written sink.old) (D.counts store.old))
        (shown quiet left (K.written sink.new) (D.counts store.new)) }
    ensures finished { IsTrue D.tells → IsLoadedAsItIs (D.view store.old).files
        → WereNotTaken result → ChangesUnnamed (D.view store.old) (D.view store.new) }
    ensures not_a_store { IsTrue D.tells → (file at : ℕ) → result ≡ Exit.NotAStore file at
        → StopsReading (D.view store.old).files file at × Narrows (D.view store.old) (D.view store.new) }
    ensures stopped { IsTrue D.tells → (file at : ℕ) → StopsReading (D.view store.old).files file at
        → (result ≡ Exit.NotAStore file at) ⊎ ((result ≡ Exit.StoreFault) ⊎ (result ≡ Exit.Memory)) }
{
    match script_of(alloc, number) {
        Ok(script) => {
            let mut source = ScriptBytes { rest: &script };
            match answer_script(alloc, folder, true, &mut source, &mut Discard, store) {
                Ok(summary) => match send_summary(&summary, sink) {
                    Ok(()) => Exit::Done,
                    Err(Failed) => Exit::SinkFault,
                },
                Err(exit) => exit,
            }
        }
        Err(Memory) => Exit::Memory,
    }
}

// Loads the folder and answers the script of the source. Gives what the answers come to.
fn answer_script<S: Source, K: Sink, D: Store>(
    alloc: Global,
    folder: &str,
    quiet: bool,
    source: &mut S,
    sink: &mut K,
    store: &mut D,
) -> Result<Summary, Exit>
    ensures done { IsTrue D.tells → IfOk result (λ summary. (found : Found)
        → IsLeft found.care (D.view store.old) found.first found.other
        → IsDoneWith found (D.view store.old) (D.view store.new) summary
        (shown quiet (S.left source.old) (K.written sink.old) (D.counts store.old))
        (shown quiet (S.left source.new) (K.written sink.new) (D.counts store.new))) }
    ensures err { IsTrue D.tells → IfErr result (λ exit. (found : Found)
        → IsLeft found.care (D.view store.old) found.first found.other
        → EndsOfScript found (D.view store.old) (D.view store.new) exit
        (shown quiet (S.left source.old) (K.written sink.old) (D.counts store.old))
        (shown quiet (S.left source.new) (K.written sink.new) (D.counts store.new))) }
    ensures untouched { IfErr result (λ exit. WereNotTaken exit
        → (source.new ≡ source.old) × (sink.new ≡ sink.old)) }
    ensures cause { IfErr result (λ exit. HasCause exit
        (faults (S.faults source.old) (K.faults sink.old) (D.counts store.old))
        (faults (S.faults source.new) (K.faults sink.new) (D.counts store.new))
        ⊎ ((source.new ≡ source.old) × (sink.new ≡ sink.old)
        × HasLoadingCause exit (D.counts store.old) (D.counts store.new))) }
    ensures no_fault { OnOk result ((D.counts store.new).writes ≡ (D.counts store.old).writes) }
    ensures complete { IsTrue D.tells → (s : State) (input : List ℕ)
        → IsLeft Whole (D.view store.old) s s → IsShortScript (S.left source.old) input
        → NoneFailed (faults (S.faults source.old) (K.faults sink.old) (D.counts store.old))
        (faults (S.faults source.new) (K.faults sink.new) (D.counts store.new))
        → IfErr result (λ exit. exit ≡ Exit.Memory) }
    ensures finished { IsTrue D.tells → IsLoadedAsItIs (D.view store.old).files
        → IfErr result (λ exit. WereNotTaken exit → ChangesUnnamed (D.view store.old) (D.view store.new)) }
    ensures not_a_store { IsTrue D.tells → (file at : ℕ) → IsErrOf result (Exit.NotAStore file at)
        → StopsReading (D.view store.old).files file at × Narrows (D.view store.old) (D.view store.new) }
    ensures stopped { IsTrue D.tells → (file at : ℕ) → StopsReading (D.view store.old).files file at
        → IsErrOf result (Exit.NotAStore file at) ⊎ (IsErrOf result Exit.StoreFault
        ⊎ IsErrOf result Exit.Memory) }
{
    match begin(alloc, folder, store) {
        Ok((server, mut piece)) => serve(server, &mut piece, quiet, source, sink, store),
        Err(exit) => Err(exit),
    }
}

// All the memory that a run needs but for its rows, and the folder's session.
fn begin<D: Store>(alloc: Global, folder: &str, store: &mut D) -> Result<(Server, Vec<u8>), Exit>
    ensures server { IsTrue D.tells → (found : Found)
        → IsLeft found.care (D.view store.old) found.first found.other
        → IfOk result (λ begun. (quiet : Bool) (left written : Option (List ℕ))
        → Serving found (D.view store.old) (D.view store.new) begun.0.reader begun.0.session begun.0.summary
        [] [] (shown quiet left written (D.counts store.old)) (shown quiet left written (D.counts store.new))) }
    ensures piece { IfOk result (λ begun. 0 < length begun.1.items) }
    ensures holds { IfOk result (λ begun. HoldsJobs begun.0.session) }
    ensures left { IsTrue D.tells → (found : Found)
        → IsLeft found.care (D.view store.old) found.first found.other
        → IfErr result (λ exit. IsUnloaded found (D.view store.old) (D.view store.new)) }
    ensures not_a_store { IsTrue D.tells → (file at : ℕ) → IsErrOf result (Exit.NotAStore file at)
        → StopsReading (D.view store.old).files file at × Narrows (D.view store.old) (D.view store.new) }
    ensures stopped { IsTrue D.tells → (file at : ℕ) → StopsReading (D.view store.old).files file at
        → IsErrOf result (Exit.NotAStore file at) ⊎ (IsErrOf result Exit.StoreFault
        ⊎ IsErrOf result Exit.Memory) }
    ensures finished { IsTrue D.tells → IsLoadedAsItIs (D.view store.old).files
        → ChangesUnnamed (D.view store.old) (D.view store.new) }
    ensures cause { IfErr result (λ exit. HasLoadingCause exit (D.counts store.old) (D.counts store.new)) }
    ensures no_fault { OnOk result
        (((D.counts store.new).reads ≡ (D.counts store.old).reads)
        × ((D.counts store.new).writes ≡ (D.counts store.old).writes)) }
    ensures counts { Rises (D.counts store.old) (D.counts store.new) }
{
    match room_of_a_run(alloc) {
        Ok((room, piece)) => match load_folder(alloc, folder, store) {
            Ok(session) => Ok((Server::new(room, session), piece)),
            Err(exit) => Err(exit),
        },
        Err(Memory) => Err(Exit::Memory),
    }
}

// All the memory that a run needs but for its rows.
fn room_of_a_run(alloc: Global) -> Result<(Room, Vec<u8>), Memory>
    ensures room { IfOk result (λ room. reader.Stands room.0.reader []) }
    ensures piece { IfOk result (λ room. 0 < length room.1.items) }
{
    let room = Room::new(alloc)?;
    let piece = vec![in alloc; 0; PIECE_LEN]?;
    Ok((room, piece))
}

// Loads the folder's session.
fn load_folder<D: Store>(alloc: Global, folder: &str, store: &mut D) -> Result<Session, Exit>
    ensures stands { IsTrue D.tells → (found : Found)
        → IsLeft found.care (D.view store.old) found.first found.other
        → IfOk result
        (λ session. Stands found.care (D.view store.new) session (without_jobs found.first)) }
    ensures holds { IfOk result HoldsJobs }
    ensures since { IsTrue D.tells → (found : Found)
        → IsLeft found.care (D.view store.old) found.first found.other
        → Since found.care found.first found.other (D.view store.old) (D.view store.new) }
    ensures left { IsTrue D.tells → (found : Found)
        → IsLeft found.care (D.view store.old) found.first found.other
        → IfErr result (λ exit. IsUnloaded found (D.view store.old) (D.view store.new)) }
    ensures not_a_store { IsTrue D.tells → (file at : ℕ) → IsErrOf result (Exit.NotAStore file at)
        → StopsReading (D.view store.old).files file at × Narrows (D.view store.old) (D.view store.new) }
    ensures stopped { IsTrue D.tells → (file at : ℕ) → StopsReading (D.view store.old).files file at
        → IsErrOf result (Exit.NotAStore file at) ⊎ (IsErrOf result Exit.StoreFault
        ⊎ IsErrOf result Exit.Memory) }
    ensures finished { IsTrue D.tells → IsLoadedAsItIs (D.view store.old).files
        → ChangesUnnamed (D.view store.old) (D.view store.new) }
    ensures cause { IfErr result (λ exit. HasLoadingCause exit (D.counts store.old) (D.counts store.new)) }
    ensures no_fault { OnOk result
        (((D.counts store.new).reads ≡ (D.counts store.old).reads)
        × ((D.counts store.new).writes ≡ (D.counts store.old).writes)) }
    ensures counts { Rises (D.counts store.old) (D.counts store.new) }
{
    match store.attach(folder) {
        Ok(()) => match Session::load(alloc, store) {
            Ok(session) => Ok(session),
            Err(refusal) => Err(exit_of(refusal)),
        },
        Err(Failed) => Err(Exit::StoreFault),
    }
}

// The exit of a run whose folder isn't loaded.
fn exit_of(refusal: LoadRefusal) -> Exit
    ensures { result ≡ exit_of refusal }
{
    match refusal {
        LoadRefusal::Fault => Exit::StoreFault,
        LoadRefusal::NotAStore { file, at } => Exit::NotAStore { file, at },
        LoadRefusal::Memory => Exit::Memory,
    }
}

// Takes the script to its end or its limit.
fn serve<S: Source, K: Sink, D: Store>(
    mut server: Server,
    piece: &mut [u8],
    quiet: bool,
    source: &mut S,
    sink: &mut K,
    store: &mut D,
) -> Result<Summary, Exit>
    requires room { 0 < length piece.old }
    requires holds { HoldsJobs server.session }
    ensures done { IsTrue D.tells → IfOk result (λ summary. (found : Found) (origin : D) (begun : Outside)
        → Serving found (D.view origin) (D.view store.old) server.reader server.session server.summary [] []
        begun (shown quiet (S.left source.old) (K.written sink.old) (D.counts store.old))
        → IsDoneWith found (D.view origin) (D.view store.new) summary begun
        (shown quiet (S.left source.new) (K.written sink.new) (D.counts store.new))) }
    ensures err { IsTrue D.tells → IfErr result (λ exit. (found : Found) (origin : D) (begun : Outside)
        → Serving found (D.view origin) (D.view store.old) server.reader server.session server.summary [] []
        begun (shown quiet (S.left source.old) (K.written sink.old) (D.counts store.old))
        → Ends found (D.view origin) (D.view store.new) exit begun
        (shown quiet (S.left source.new) (K.written sink.new) (D.counts store.new))) }
    ensures cause { IfErr result (λ exit. HasCause exit
        (faults (S.faults source.old) (K.faults sink.old) (D.counts store.old))
        (faults (S.faults source.new) (K.faults sink.new) (D.counts store.new))) }
    ensures no_fault { OnOk result ((D.counts store.new).writes ≡ (D.counts store.old).writes) }
{
    let mut taken = 0;
    for _ in 0..=MAX_SCRIPT_LEN {
        if taken == MAX_SCRIPT_LEN {
            return serve_limit(server, quiet, source, sink, store);
        }
        let room = piece.len().min(MAX_SCRIPT_LEN - taken);
        match serve_piece(server, &mut piece[..room], quiet, source, sink, store) {
            Ok((next, 0)) => return next.end(quiet, sink, store),
            Ok((next, count)) => {
                server = next;
                taken += count;
            }
            Err(exit) => return Err(exit),
        }
    }
    unreachable!()
}

// Reads the next piece of the script, and answers the commands that end in it. A piece of 0 bytes is the
// script's end.
fn serve_piece<S: Source, K: Sink, D: Store>(
    server: Server,
    piece: &mut [u8],
    quiet: bool,
    source: &mut S,
    sink: &mut K,
    store: &mut D,
) -> Result<(Server, usize), Exit>
    requires room { 0 < length piece.old }
    requires holds { HoldsJobs server.session }
    ensures holds { IfOk result (λ next. HoldsJobs next.0.session) }
    ensures bound { IfOk result (λ next. next.1 ≤ length piece.old) }
    ensures end { IfOk result (λ next. next.1 ≡ 0 → IsAtEnd (S.left source.new)) }
    ensures ok { IsTrue D.tells → IfOk result (λ next. (found : Found) (origin : D) (served : List ℕ)
        (begun : Outside)
        → Serving found (D.view origin) (D.view store.old) server.reader server.session server.summary served [] begun
        (shown quiet (S.left source.old) (K.written sink.old) (D.counts store.old))
        → (more : List ℕ) × (length more ≡ next.1)
        × Serving found (D.view origin) (D.view store.new) next.0.reader next.0.session next.0.summary (served ++ more) []
        begun (shown quiet (S.left source.new) (K.written sink.new) (D.counts store.new))) }
    ensures err { IsTrue D.tells → IfErr result (λ exit. (found : Found) (origin : D) (served : List ℕ)
        (begun : Outside)
        → Serving found (D.view origin) (D.view store.old) server.reader server.session server.summary served [] begun
        (shown quiet (S.left source.old) (K.written sink.old) (D.counts store.old))
        → length served + length piece.old ≤ longest_script
        → Ends found (D.view origin) (D.view store.new) exit begun
        (shown quiet (S.left source.new) (K.written sink.new) (D.counts store.new))) }
    ensures cause { IfErr result (λ exit. HasCause exit
        (faults (S.faults source.old) (K.faults sink.old) (D.counts store.old))
        (faults (S.faults source.new) (K.faults sink.new) (D.counts store.new))) }
    ensures no_fault { OnOk result ((D.counts store.new).writes ≡ (D.counts store.old).writes) }
    ensures counts { NoneFell (faults (S.faults source.old) (K.faults sink.old) (D.counts store.old))
        (faults (S.faults source.new) (K.faults sink.new) (D.counts store.new)) }
{
    match source.read(piece) {
        Ok(count) => match server.take(&piece[..count], quiet, sink, store) {
            Ok(server) => Ok((server, count)),
            Err(exit) => Err(exit),
        },
        Err(Failed) => Err(Exit::SourceFault),
    }
}

// As many bytes were taken as a script may have: the run ends where there is one more, which isn't served.
fn serve_limit<S: Source, K: Sink, D: Store>(
    server: Server,
    quiet: bool,
    source: &mut S,
    sink: &mut K,
    store: &mut D,
) -> Result<Summary, Exit>
    requires holds { HoldsJobs server.session }
    ensures done { IsTrue D.tells → IfOk result (λ summary. (found : Found) (origin : D) (served : List ℕ)
        (begun : Outside)
        → Serving found (D.view origin) (D.view store.old) server.reader server.session server.summary served
        [] begun (shown quiet (S.left source.old) (K.written sink.old) (D.counts store.old))
        → length served ≡ longest_script
        → IsDoneWith found (D.view origin) (D.view store.new) summary begun
        (shown quiet (S.left source.new) (K.written sink.new) (D.counts store.new))) }
    ensures err { IsTrue D.tells → IfErr result (λ exit. (found : Found) (origin : D) (served : List ℕ)
        (begun : Outside)
        → Serving found (D.view origin) (D.view store.old) server.reader server.session server.summary served
        [] begun (shown quiet (S.left source.old) (K.written sink.old) (D.counts store.old))
        → length served ≡ longest_script
        → Ends found (D.view origin) (D.view store.new) exit begun
        (shown quiet (S.left source.new) (K.written sink.new) (D.counts store.new))) }
    ensures cause { IfErr result (λ exit. HasCause exit
        (faults (S.faults source.old) (K.faults sink.old) (D.counts store.old))
        (faults (S.faults source.new) (K.faults sink.new) (D.counts store.new))) }
    ensures no_fault { OnOk result ((D.counts store.new).writes ≡ (D.counts store.old).writes) }
{
    let mut byte = [0];
    match source.read(&mut byte) {
        Ok(0) => server.end(quiet, sink, store),
        Ok(_) => Err(Exit::ScriptLimit),
        Err(Failed) => Err(Exit::SourceFault),
    }
}
