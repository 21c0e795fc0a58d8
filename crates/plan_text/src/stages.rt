//! How plans are read: a method for each rule of the grammar, named as the rule. Within parentheses one level
//! less may be open, so no call goes deeper than the levels; stages are read in a loop.
ghost use Rattle.std.specs.Prelude.{◌≤◌, ◌∷◌, length, IfOk};
ghost use Rattle.plan_text.specs.declared.token.Token.TheVariants as token;
ghost use Rattle.plan_text.specs.Draft.{limits};
ghost use Rattle.plan_text.specs.PlanDraft.{seen_plan};
ghost use Rattle.plan_text.specs.Reader.{Reads};
ghost use Rattle.plan_text.specs.PlanReading.{inner_plan_at, where_at, select_at, group_at, join_at};
ghost use Rattle.plan_text.specs.PlanReading.{concat_at, order_at, stage_at, from_at, inner_plan, plan_at};

use crate::parser::{Parser, Terminal};
use crate::plan_draft::{
    PlanDraft, concatenated, distinct, filtered, grouped, joined, ordered, projected, stream,
};
use crate::text_refusal::TextRefusal;
use crate::{Token, Word};

impl Parser<'_> {
    /// The stream that a plan begins with.
    fn from(&mut self) -> Result<PlanDraft, TextRefusal>
        ensures { Reads seen_plan result self.new.rest.now (from_at limits self.old.rest.now) }
    {
        match self.rest {
            [Token::Word(Word::From), rest @ ..] => {
                self.rest = rest;
                let name = self.name()?;
                stream(self.alloc, name)
            }
            _ => Err(TextRefusal::Syntax),
        }
    }

    /// A test, behind `where`.
    fn where_stage(&mut self, levels: u32, plan: PlanDraft) -> Result<PlanDraft, TextRefusal>
        ensures { Reads seen_plan result self.new.rest.now
            (where_at limits levels (seen_plan plan) self.old.rest.now) }
    {
        let test = self.expr(levels)?;
        filtered(self.alloc, plan, test)
    }

    /// Columns, behind `select`.
    fn select_stage(&mut self, levels: u32, plan: PlanDraft) -> Result<PlanDraft, TextRefusal>
        ensures { Reads seen_plan result self.new.rest.now
            (select_at limits levels (seen_plan plan) self.old.rest.now) }
    {
        let columns = self.columns(levels)?;
        projected(self.alloc, plan, columns)
    }

    /// Keys and aggregates, behind `group`.
    fn group_stage(&mut self, levels: u32, plan: PlanDraft) -> Result<PlanDraft, TextRefusal>
        ensures { Reads seen_plan result self.new.rest.now
            (group_at limits levels (seen_plan plan) self.old.rest.now) }
    {
        let keys = self.list(levels)?;
        self.need(Terminal::With)?;
        let results = self.list(levels)?;
        grouped(self.alloc, plan, keys, results)
    }

    /// Keys, behind `order`.
    fn order_stage(&mut self, levels: u32, plan: PlanDraft) -> Result<PlanDraft, TextRefusal>
        ensures { Reads seen_plan result self.new.rest.now
            (order_at limits (seen_plan plan) self.old.rest.now) }
    {
        let keys = self.list(levels)?;
        ordered(self.alloc, plan, keys)
    }

    /// A plan within parentheses.
    #[cycle(plan)]
    #[tactic(auto, using(crate::proofs::Levels::inner_plan_with_levels))]
    fn plan_within(&mut self, levels: u32) -> Result<PlanDraft, TextRefusal>
        ensures { Reads seen_plan result self.new.rest.now (inner_plan limits levels self.old.rest.now) }
    {
        if levels == 0 {
            return Err(TextRefusal::Syntax);
        }
        self.plan(levels - 1)
    }

    /// A plan and its parentheses.
    #[cycle(plan)]
    fn inner_plan(&mut self, levels: u32) -> Result<PlanDraft, TextRefusal>
        ensures { Reads seen_plan result self.new.rest.now
            (inner_plan_at (inner_plan limits levels) self.old.rest.now) }
    {
        self.need(Terminal::Open)?;
        let plan = self.plan_within(levels)?;
        self.need(Terminal::Close)?;
        Ok(plan)
    }

    /// The other plan and the pairs, behind `join`.
    #[cycle(plan)]
    fn join_stage(&mut self, levels: u32, plan: PlanDraft) -> Result<PlanDraft, TextRefusal>
        ensures { Reads seen_plan result self.new.rest.now
            (join_at limits (inner_plan limits levels) (seen_plan plan) self.old.rest.now) }
    {
        let right = self.inner_plan(levels)?;
        self.need(Terminal::On)?;
        let pairs = self.list(levels)?;
        joined(self.alloc, plan, right, pairs)
    }

    /// The other plan, behind `concat`.
    #[cycle(plan)]
    fn concat_stage(&mut self, levels: u32, plan: PlanDraft) -> Result<PlanDraft, TextRefusal>
        ensures { Reads seen_plan result self.new.rest.now
            (concat_at limits (inner_plan limits levels) (seen_plan plan) self.old.rest.now) }
    {
        let right = self.inner_plan(levels)?;
        concatenated(self.alloc, plan, right)
    }

    /// The stage that this word begins.
    #[cycle(plan)]
    fn stage_of(
        &mut self,
        levels: u32,
        plan: PlanDraft,
        word: Word,
    ) -> Result<PlanDraft, TextRefusal>
        ensures { Reads seen_plan result self.new.rest.now
            (stage_at limits (inner_plan limits levels) levels (seen_plan plan)
            (token.Word word ∷ self.old.rest.now)) }
    {
        match word {
            Word::Where => self.where_stage(levels, plan),
            Word::Select => self.select_stage(levels, plan),
            Word::Distinct => distinct(self.alloc, plan),
            Word::Group => self.group_stage(levels, plan),
            Word::Join => self.join_stage(levels, plan),
            Word::Concat => self.concat_stage(levels, plan),
            Word::Order => self.order_stage(levels, plan),
            _ => Err(TextRefusal::Syntax),
        }
    }

    /// A stage on the plan before it.
    #[cycle(plan)]
    fn stage(&mut self, levels: u32, plan: PlanDraft) -> Result<PlanDraft, TextRefusal>
        ensures { Reads seen_plan result self.new.rest.now
            (stage_at limits (inner_plan limits levels) levels (seen_plan plan) self.old.rest.now) }
    {
        match self.rest {
            [Token::Word(word), rest @ ..] => {
                self.rest = rest;
                self.stage_of(levels, plan, *word)
            }
            _ => Err(TextRefusal::Syntax),
        }
    }

    #[cycle(plan)]
    pub(crate) fn plan(&mut self, levels: u32) -> Result<PlanDraft, TextRefusal>
        ensures { Reads seen_plan result self.new.rest.now (plan_at limits levels self.old.rest.now) }
    {
        let mut plan = self.from()?;
        let turns = self.rest.len() + 1;
        for _ in 0..turns {
            if !self.pass(Terminal::Bar) {
                return Ok(plan);
            }
            plan = self.stage(levels, plan)?;
        }
        Err(TextRefusal::Syntax)
    }
}
