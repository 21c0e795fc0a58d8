//! What the answers of a run come to.
ghost use Rattle.std.specs.Prelude.{◌≡◌, ◌<◌, ◌++◌, [], decimal, slice_index_or};
ghost use Rattle.nectar_top.specs.Summary.{of_answer, plain, summary_lines, summary_of, together};

use script_text::Answer;

/// What the answers of a run come to. Each number stands still at the greatest of 64 bits.
#[derive(Clone, Copy, PartialEq, Eq)]
pub struct Summary {
    /// The commands that were answered.
    pub commands: u64,
    /// The rows of all results.
    pub rows: u64,
    /// The ids of kept results that were told as used.
    pub used: u64,
    /// The ids of results that were told as kept.
    pub kept: u64,
    /// The ids of kept results that were told as evicted.
    pub evicted: u64,
    /// The bytes of files that results told as read.
    pub read: u64,
    /// The commands that were refused.
    pub refused: u64,
}

/// The number of a summary's lines.
pub const SUMMARY_LINES: u64 = 7;

impl Summary {
    /// That of no answer.
    pub fn new() -> Summary
        ensures { result ≡ summary_of [] }
    {
        Summary {
            commands: 0,
            rows: 0,
            used: 0,
            kept: 0,
            evicted: 0,
            read: 0,
            refused: 0,
        }
    }

    /// With one answer more.
    pub fn with(self, answer: &Answer) -> Summary
        ensures { result ≡ together self (of_answer answer.now) }
    {
        let more = summary_of_answer(answer);
        Summary {
            commands: self.commands.saturating_add(more.commands),
            rows: self.rows.saturating_add(more.rows),
            used: self.used.saturating_add(more.used),
            kept: self.kept.saturating_add(more.kept),
            evicted: self.evicted.saturating_add(more.evicted),
            read: self.read.saturating_add(more.read),
            refused: self.refused.saturating_add(more.refused),
        }
    }

    /// The line of this number, from 0: its word with a space, and the number behind it.
    pub fn line(&self, at: u64) -> (&'static [u8], u64)
        requires { at < 7 }
        ensures { result.0.now ++ decimal result.1 ≡ slice_index_or (summary_lines self.now) at [] }
    {
        match at {
            0 => (b"commands ", self.commands),
            1 => (b"rows ", self.rows),
            2 => (b"used ", self.used),
            3 => (b"kept ", self.kept),
            4 => (b"evicted ", self.evicted),
            5 => (b"read ", self.read),
            _ => (b"refused ", self.refused),
        }
    }
}

// What one answer comes to.
fn summary_of_answer(answer: &Answer) -> Summary
    ensures { result ≡ of_answer answer.now }
{
    match answer {
        Answer::Result {
            rows,
            used,
            kept,
            read,
        } => Summary {
            rows: rows.items().len() as u64,
            used: used.items().len() as u64,
            kept: kept.items().len() as u64,
            read: *read,
            ..one_command()
        },
        Answer::Evicted { ids, .. } => Summary {
            evicted: ids.items().len() as u64,
            ..one_command()
        },
        Answer::Refused(_) => Summary {
            refused: 1,
            ..one_command()
        },
        Answer::Ok
        | Answer::Held(_)
        | Answer::Ready(_)
        | Answer::Left(_)
        | Answer::Entries(_)
        | Answer::Catalog(_) => one_command(),
    }
}

// One command, which says nothing more.
fn one_command() -> Summary
    ensures { result ≡ plain }
{
    Summary {
        commands: 1,
        ..Summary::new()
    }
}
