//! Expressions and plans, written with each operator behind its parts, as `s0 #0 1 op17 filter`.
//!
//! Of expressions: `#0` is a column; a number, `'tea`, `true` and `false` are literals; `op17` is the
//! operation with that row of the table; `and`, `or` and `if`. Of plans: `s0` is a scan; `filter` takes a
//! plan and a test; `columns2` a plan and two columns; `distinct`; `group` a plan, the keys as `key1`, and
//! the aggregates, as `count` and `sum2`; `join` two plans and the pairs, as `on0=1`; `concat`; `order` a
//! plan and the keys, as `up0` and `down1`.

use anyhow::{Context, Result};
use plan_core::{Agg, Expr, Plan};
use rows_core::{Key, Seq, Txt};
use scalar_ops::{Args, Cell, OPS, Operations};
use std::alloc::Global;

/// The parts that were read and not yet taken.
#[derive(Drop)]
struct Reader {
    alloc: Global,
    exprs: Vec<Box<Expr>>,
    plans: Vec<Box<Plan>>,
    keys: Vec<u32>,
    aggs: Vec<Agg>,
    pairs: Vec<(u32, u32)>,
    order: Vec<Key>,
}

/// The expression that is written so.
pub fn expr_of(alloc: Global, text: &str) -> Result<Expr> {
    let mut reader = Reader::new(alloc);
    reader.whole_expr(text)
}

/// The plan that is written so.
pub fn plan_of(alloc: Global, text: &str) -> Result<Plan> {
    let mut reader = Reader::new(alloc);
    reader.whole_plan(text)
}

impl Reader {
    fn new(alloc: Global) -> Reader {
        Reader {
            alloc,
            exprs: Vec::new(alloc),
            plans: Vec::new(alloc),
            keys: Vec::new(alloc),
            aggs: Vec::new(alloc),
            pairs: Vec::new(alloc),
            order: Vec::new(alloc),
        }
    }

    fn whole_expr(&mut self, text: &str) -> Result<Expr> {
        self.read(text)?;
        Ok(Box::into_inner(self.expr()?))
    }

    fn whole_plan(&mut self, text: &str) -> Result<Plan> {
        self.read(text)?;
        Ok(Box::into_inner(self.plan()?))
    }

    fn read(&mut self, text: &str) -> Result<()> {
        for word in text.split_whitespace() {
            self.put(word)?;
        }
        Ok(())
    }

    fn put(&mut self, word: &str) -> Result<()> {
        match word {
            "and" => self.and(),
            "or" => self.or(),
            "if" => self.choice(),
            "filter" => self.filter(),
            "distinct" => self.distinct(),
            "group" => self.group(),
            "join" => self.join(),
            "concat" => self.concat(),
            "order" => self.order(),
            _ => self.put_numbered(word),
        }
    }

    /// A word with a number behind its letters, or a literal.
    fn put_numbered(&mut self, word: &str) -> Result<()> {
        if let Some(stream) = number_behind(word, "s") {
            return self.put_plan(Plan::Scan { stream });
        }
        if let Some(count) = number_behind(word, "columns") {
            return self.project(count);
        }
        if let Some(column) = number_behind(word, "#") {
            return self.put_expr(Expr::Column(column));
        }
        if let Some(row) = number_behind(word, "op") {
            return self.call(row);
        }
        match literal_of(self.alloc, word)? {
            Some(cell) => self.put_expr(Expr::Literal(cell)),
            None => self.put_list_word(word),
        }
    }

    /// A word of the list of a group, an order or a join.
    fn put_list_word(&mut self, word: &str) -> Result<()> {
        if let Some(agg) = agg_of(word) {
            self.aggs.push(agg)?;
        } else if let Some(column) = number_behind(word, "key") {
            self.keys.push(column)?;
        } else if let Some(key) = key_of(word) {
            self.order.push(key)?;
        } else {
            self.pairs.push(pair_of(word).context("no such word")?)?;
        }
        Ok(())
    }

    fn put_expr(&mut self, expr: Expr) -> Result<()> {
        let expr = Box::new(self.alloc, expr)?;
        Ok(self.exprs.push(expr)?)
    }

    fn put_plan(&mut self, plan: Plan) -> Result<()> {
        let plan = Box::new(self.alloc, plan)?;
        Ok(self.plans.push(plan)?)
    }

    fn expr(&mut self) -> Result<Box<Expr>> {
        self.exprs.pop().context("no expression")
    }

    fn plan(&mut self) -> Result<Box<Plan>> {
        self.plans.pop().context("no plan")
    }

    /// A call of a row of the table; a row that isn't there has two arguments.
    fn call(&mut self, row: u32) -> Result<()> {
        if has_one_argument(row) {
            let arg = self.expr()?;
            return self.put_expr(Expr::Call1 { row, arg });
        }
        let right = self.expr()?;
        let left = self.expr()?;
        self.put_expr(Expr::Call2 { row, left, right })
    }

    fn and(&mut self) -> Result<()> {
        let right = self.expr()?;
        let left = self.expr()?;
        self.put_expr(Expr::And(left, right))
    }

    fn or(&mut self) -> Result<()> {
        let right = self.expr()?;
        let left = self.expr()?;
        self.put_expr(Expr::Or(left, right))
    }

    fn choice(&mut self) -> Result<()> {
        let other = self.expr()?;
        let then = self.expr()?;
        let test = self.expr()?;
        self.put_expr(Expr::If(test, then, other))
    }

    fn filter(&mut self) -> Result<()> {
        let test = self.expr()?;
        let child = self.plan()?;
        let test = Box::into_inner(test);
        self.put_plan(Plan::Filter { child, test })
    }

    fn project(&mut self, count: u32) -> Result<()> {
        let columns = self.columns(count)?;
        let child = self.plan()?;
        self.put_plan(Plan::Project { child, columns })
    }

    /// So many expressions, those that were read last.
    fn columns(&mut self, count: u32) -> Result<Seq<Expr>> {
        let mut columns = Vec::new(self.alloc);
        for _ in 0..count {
            columns.push(Box::into_inner(self.expr()?))?;
        }
        columns.reverse();
        Ok(Seq::new(columns))
    }

    fn distinct(&mut self) -> Result<()> {
        let child = self.plan()?;
        self.put_plan(Plan::Distinct { child })
    }

    fn group(&mut self) -> Result<()> {
        let child = self.plan()?;
        let keys = Seq::new(std::mem::replace(&mut self.keys, Vec::new(self.alloc)));
        let aggs = Seq::new(std::mem::replace(&mut self.aggs, Vec::new(self.alloc)));
        self.put_plan(Plan::Group { child, keys, aggs })
    }

    fn join(&mut self) -> Result<()> {
        let right = self.plan()?;
        let left = self.plan()?;
        let on = Seq::new(std::mem::replace(&mut self.pairs, Vec::new(self.alloc)));
        self.put_plan(Plan::Join { left, right, on })
    }

    fn concat(&mut self) -> Result<()> {
        let right = self.plan()?;
        let left = self.plan()?;
        self.put_plan(Plan::Concat { left, right })
    }

    fn order(&mut self) -> Result<()> {
        let child = self.plan()?;
        let keys = Seq::new(std::mem::replace(&mut self.order, Vec::new(self.alloc)));
        self.put_plan(Plan::Order { child, keys })
    }
}

/// The number behind these letters.
fn number_behind(word: &str, letters: &str) -> Option<u32> {
    word.strip_prefix(letters)?.parse::<u32>().ok()
}

/// The literal that is written so.
pub fn literal_of(alloc: Global, word: &str) -> Result<Option<Cell>> {
    if let Some(text) = word.strip_prefix('\'') {
        return Ok(Some(Cell::Text(Txt::new(alloc, text.as_bytes())?)));
    }
    Ok(match word {
        "true" => Some(Cell::Bool(true)),
        "false" => Some(Cell::Bool(false)),
        _ => word.parse::<i64>().ok().map(Cell::Int),
    })
}

fn has_one_argument(row: u32) -> bool {
    let table = OPS;
    is_of_one(&table, row)
}

fn is_of_one(table: &Operations, row: u32) -> bool {
    match table.rows.get(row as usize) {
        Some(row) => matches!(row.args, Args::One(_)),
        None => false,
    }
}

fn agg_of(word: &str) -> Option<Agg> {
    if word == "count" {
        return Some(Agg::Count);
    }
    if let Some(column) = number_behind(word, "sum") {
        return Some(Agg::Sum(column));
    }
    if let Some(column) = number_behind(word, "min") {
        return Some(Agg::Min(column));
    }
    if let Some(column) = number_behind(word, "max") {
        return Some(Agg::Max(column));
    }
    if let Some(column) = number_behind(word, "first") {
        return Some(Agg::First(column));
    }
    if let Some(column) = number_behind(word, "last") {
        return Some(Agg::Last(column));
    }
    Some(Agg::Avg(number_behind(word, "avg")?))
}

/// A key of an order, as `up0` and `down1`.
fn key_of(word: &str) -> Option<Key> {
    if let Some(column) = number_behind(word, "up") {
        return Some(Key {
            column,
            down: false,
        });
    }
    let column = number_behind(word, "down")?;
    Some(Key { column, down: true })
}

/// Two columns, as `on0=1`.
fn pair_of(word: &str) -> Option<(u32, u32)> {
    let (left, right) = word.strip_prefix("on")?.split_once('=')?;
    Some((left.parse::<u32>().ok()?, right.parse::<u32>().ok()?))
}
