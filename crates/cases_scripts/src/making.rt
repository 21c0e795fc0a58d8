//! Commands that are drawn. None of them is refused: where the name that is drawn for a fetch stands for no
//! plan, a run takes its place; and a job that isn't open is opened, and else stepped, closed or dropped.

use crate::meant::{Meant, Rows};
use crate::plans::{PLAN_COUNT, plan};
use anyhow::Result;
use case_text::draw::Draw;
use std::alloc::Global;

const NAME_COUNT: u64 = 6;

const JOB_COUNT: u64 = 3;

/// What a command is to be answered.
#[derive(Clone, Copy)]
pub enum Awaited {
    /// A line that begins so.
    Line(&'static str),
    /// What a collection has evicted.
    Collection,
    /// The kept results.
    Entries,
    /// The result of a run or a fetch.
    Result(Meant),
    /// The result of a job.
    Closed(Meant),
}

/// A command as it is written, with its LFs, and its answer.
#[derive(Drop)]
pub struct Command {
    pub text: String,
    pub awaited: Awaited,
}

/// The commands of a case, and all rows that they append.
#[derive(Drop)]
pub struct Made {
    pub commands: Vec<Command>,
    pub rows: Rows,
}

/// An open job: the name that it is for, and its plan on the rows of its opening.
#[derive(Clone, Copy)]
struct Job {
    name: u64,
    meant: Meant,
}

/// What the commands so far have made: the rows; what each name stands for, with the rows of its last run or
/// close; and the open jobs.
#[derive(Drop)]
struct Maker {
    alloc: Global,
    draw: Draw,
    rows: Rows,
    names: [Option<Meant>; NAME_COUNT as usize],
    jobs: [Option<Job>; JOB_COUNT as usize],
}

/// So many commands, drawn from the seed.
pub fn commands_of(alloc: Global, seed: u64, count: u64) -> Result<Made> {
    let mut maker = Maker::new(alloc, seed);
    let commands = maker.commands(count)?;
    Ok(Made {
        commands,
        rows: maker.rows,
    })
}

impl Maker {
    fn new(alloc: Global, seed: u64) -> Maker {
        Maker {
            alloc,
            draw: Draw::new(seed),
            rows: Rows {
                s: String::new(alloc),
                t: String::new(alloc),
            },
            names: [None; NAME_COUNT as usize],
            jobs: [None; JOB_COUNT as usize],
        }
    }

    fn commands(&mut self, count: u64) -> Result<Vec<Command>> {
        let mut commands = Vec::new(self.alloc);
        for _ in 0..count {
            commands.push(self.command()?)?;
        }
        Ok(commands)
    }

    fn command(&mut self) -> Result<Command> {
        match self.draw.below(20) {
            0 | 1 | 2 => self.append_s(),
            3 | 4 => self.append_t(),
            5 | 6 | 7 => self.run(),
            8 | 9 => self.fetch(),
            10 => self.fetch_as_run(),
            11 => self.collect(),
            12 => self.entries(),
            _ => self.job(),
        }
    }

    fn append_s(&mut self) -> Result<Command> {
        let mut lines = String::new(self.alloc);
        for _ in 0..=self.draw.below(3) {
            let (k, v) = (self.draw.below(5), self.draw.below(100));
            lines.push_str(format!(in self.alloc; "{k},{v}\n")?.as_str())?;
        }
        self.rows.s.push_str(lines.as_str())?;
        let text = format!(in self.alloc; "append s\n{lines}end\n")?;
        Ok(answered(text, Awaited::Line("ok ")))
    }

    fn append_t(&mut self) -> Result<Command> {
        let mut lines = String::new(self.alloc);
        for _ in 0..=self.draw.below(3) {
            let (j, w) = (self.draw.below(5), word(self.draw.below(4)));
            lines.push_str(format!(in self.alloc; "{j},\"{w}\"\n")?.as_str())?;
        }
        self.rows.t.push_str(lines.as_str())?;
        let text = format!(in self.alloc; "append t\n{lines}end\n")?;
        Ok(answered(text, Awaited::Line("ok ")))
    }

    fn run(&mut self) -> Result<Command> {
        let name = self.draw.below(NAME_COUNT);
        let meant = self.drawn();
        let plan = plan(meant.plan).script;
        self.store(name, meant);
        let text = format!(in self.alloc; "run p{name} = {plan}\n")?;
        Ok(answered(text, Awaited::Result(meant)))
    }

    fn fetch(&mut self) -> Result<Command> {
        let name = self.draw.below(NAME_COUNT);
        match self.stored(name) {
            Some(last) => {
                let text = format!(in self.alloc; "fetch p{name}\n")?;
                Ok(answered(text, Awaited::Result(self.at_present(last.plan))))
            }
            None => self.run(),
        }
    }

    fn fetch_as_run(&mut self) -> Result<Command> {
        let name = self.draw.below(NAME_COUNT);
        match self.stored(name) {
            Some(last) => {
                let text = format!(in self.alloc; "fetch p{name} as-run\n")?;
                Ok(answered(text, Awaited::Result(last)))
            }
            None => self.run(),
        }
    }

    /// A small collection, or one of all kept results.
    fn collect(&mut self) -> Result<Command> {
        let bytes = match self.draw.below(3) {
            0 => 1_000_000_000,
            _ => self.draw.below(400),
        };
        let text = format!(in self.alloc; "collect {bytes}\n")?;
        Ok(answered(text, Awaited::Collection))
    }

    fn entries(&mut self) -> Result<Command> {
        let text = String::from_str(self.alloc, "entries\n")?;
        Ok(answered(text, Awaited::Entries))
    }

    fn job(&mut self) -> Result<Command> {
        let number = self.draw.below(JOB_COUNT);
        match self.open_job(number) {
            None => self.open(number),
            Some(job) => match self.draw.below(12) {
                0 => self.drop_job(number),
                1 | 2 => self.close(number, job),
                _ => self.step(number),
            },
        }
    }

    fn open(&mut self, number: u64) -> Result<Command> {
        let name = self.draw.below(NAME_COUNT);
        let meant = self.drawn();
        let plan = plan(meant.plan).script;
        self.put_job(number, Some(Job { name, meant }));
        let text = format!(in self.alloc; "open j{number} p{name} = {plan}\n")?;
        Ok(answered(text, Awaited::Line("ok ")))
    }

    fn step(&mut self, number: u64) -> Result<Command> {
        let text = format!(in self.alloc; "step j{number}\n")?;
        Ok(answered(text, Awaited::Line("left ")))
    }

    fn close(&mut self, number: u64, job: Job) -> Result<Command> {
        self.put_job(number, None);
        self.store(job.name, job.meant);
        let text = format!(in self.alloc; "close j{number}\n")?;
        Ok(answered(text, Awaited::Closed(job.meant)))
    }

    fn drop_job(&mut self, number: u64) -> Result<Command> {
        self.put_job(number, None);
        let text = format!(in self.alloc; "drop j{number}\n")?;
        Ok(answered(text, Awaited::Line("ok")))
    }

    /// A plan on all rows so far.
    fn drawn(&mut self) -> Meant {
        let plan = self.draw.below(PLAN_COUNT);
        self.at_present(plan)
    }

    fn at_present(&self, plan: u64) -> Meant {
        Meant {
            plan,
            s: self.rows.s.len(),
            t: self.rows.t.len(),
        }
    }

    fn stored(&self, name: u64) -> Option<Meant> {
        self.names.get(name as usize).copied().flatten()
    }

    fn store(&mut self, name: u64, meant: Meant) {
        if let Some(place) = self.names.get_mut(name as usize) {
            *place = Some(meant);
        }
    }

    fn open_job(&self, number: u64) -> Option<Job> {
        self.jobs.get(number as usize).copied().flatten()
    }

    fn put_job(&mut self, number: u64, job: Option<Job>) {
        if let Some(place) = self.jobs.get_mut(number as usize) {
            *place = job;
        }
    }
}

fn answered(text: String, awaited: Awaited) -> Command {
    Command { text, awaited }
}

fn word(number: u64) -> &'static str {
    match number {
        0 => "ash",
        1 => "elm",
        2 => "fir",
        _ => "oak",
    }
}
