//! Plans as they are written, with the streams that they name.
ghost use Rattle.std.specs.Prelude.{◌≡◌, ◌++◌, IfOk, OnOk};
ghost use Rattle.plan_text.specs.PlainNamed.{PlainTree, tree_of, streams_of};
ghost use Rattle.plan_text.specs.Spelled.{IsWritten};

use crate::plan::NamedTree;
use rows_core::{Memory, Name, Seq};
use std::alloc::Global;
use std::marker::Model;

/// A plan with names that some text within the limits spells. The grammar and the limits are this project's
/// own. Contracts see it as its operators, without their boxes.
#[derive(Drop)]
pub struct NamedPlan {
    tree: NamedTree,
    streams: Seq<Name>,
}

impl Model for NamedPlan {
    ghost use Rattle.std.specs.Prelude.{◌≡◌};
    ghost use Rattle.plan_text.specs.PlainNamed.{PlainTree, tree_of, streams_of};
    ghost use Rattle.plan_text.specs.NamedCode.{tree_code};
    ghost use Rattle.plan_text.specs.Spelled.{IsWritten};

    ghost Value = { PlainTree };

    ghost coded = { tree_code };

    ghost view = { λ plan. tree_of plan.tree };

    ghost invariant = { λ plan. (plan.streams ≡ streams_of (tree_of plan.tree))
        × IsWritten (tree_of plan.tree) };
}

impl NamedPlan {
    /// The plan of these operators, with copies of its streams' names. `Memory` where memory was asked for
    /// and refused.
    pub fn new(alloc: Global, tree: NamedTree) -> Result<NamedPlan, Memory>
        requires written { IsWritten (tree_of tree) }
        ensures { IfOk result (λ plan. plan ≡ tree_of tree) }
    {
        let mut streams = Vec::new(alloc);
        put_streams(&tree, alloc, &mut streams)?;
        Ok(NamedPlan {
            tree,
            streams: Seq::new(streams),
        })
    }

    /// The operators.
    pub fn tree(&self) -> &NamedTree
        ensures tree { tree_of result.now ≡ self.now }
        ensures written { IsWritten self.now }
    {
        &self.tree
    }

    /// The names of the streams of the leaves, from the left. It takes no memory.
    pub fn streams(&self) -> &[Name]
        ensures { result.now ≡ streams_of self.now }
    {
        self.streams.items()
    }
}

fn put_streams(tree: &NamedTree, alloc: Global, to: &mut Vec<Name>) -> Result<(), Memory>
    ensures { OnOk result (to.new.items ≡ to.old.items ++ streams_of (tree_of tree.now)) }
{
    match tree {
        NamedTree::From { stream } => {
            to.push(stream.try_copy(alloc)?)?;
            Ok(())
        }
        NamedTree::Where { child, test: _ }
        | NamedTree::Select { child, columns: _ }
        | NamedTree::Distinct { child }
        | NamedTree::Group {
            child,
            keys: _,
            results: _,
        }
        | NamedTree::Order { child, keys: _ } => put_streams(child, alloc, to),
        NamedTree::Join { left, right, on: _ } | NamedTree::Concat { left, right } => {
            put_streams(left, alloc, to)?;
            put_streams(right, alloc, to)
        }
    }
}
