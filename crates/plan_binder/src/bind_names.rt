//! Places of names among names.
ghost use Rattle.std.specs.Prelude.{◌≡◌, map, Option, Some};
ghost use Rattle.plan_core.specs.ExpressionKind.{of_both};
ghost use Rattle.plan_core.specs.PlanTyping.{all_there};
ghost use Rattle.plan_binder.specs.Binding.{Names, place_of, is_there, has_repeat, bound_pair, bound_key};
ghost use Rattle.plan_binder.specs.Binding.{column_agg, bound_agg};
ghost use Rattle.plan_binder.specs.BoundPlan.{items_of, parts_of};
ghost use Rattle.plan_binder.specs.Resolves.{Resolves};

use crate::allocation::push;
use crate::refusal::BindRefusal;
use plan_core::Agg;
use plan_text::{AggFunction, NamedAgg, NamedKey, NamedPair, NamedResult};
use rows_core::{Key, Name};
use std::alloc::Global;

/// The place of a name, counted from 0. A place above 4,294,967,295 is want of memory: no list of names is
/// that long.
pub fn place_of(names: &[Name], name: &[u8]) -> Result<u32, BindRefusal>
    ensures { Resolves (λ place. place) result (place_of names.now name.now) }
{
    let Some(place) = position_of(names, name) else {
        return Err(BindRefusal::IllTyped);
    };
    match u32::try_from(place) {
        Ok(place) => Ok(place),
        Err(_) => Err(BindRefusal::Memory),
    }
}

fn position_of(names: &[Name], name: &[u8]) -> Option<usize>
    ensures { result ≡ place_of names.now name.now }
{
    names.iter().position(|other| other.bytes() == name)
}

fn is_there(names: &[Name], name: &[u8]) -> bool
    ensures { result ≡ is_there names.now name.now }
{
    position_of(names, name).is_some()
}

/// Whether two of them are one name.
pub fn has_repeat(names: &[Name]) -> bool
    ensures { result ≡ has_repeat names.now }
{
    let mut rest = names;
    while let [first, others @ ..] = rest {
        if is_there(others, first.bytes()) {
            return true;
        }
        rest = others;
    }
    false
}

/// What a group takes of its input: the places of its keys, and its aggregates.
#[derive(Drop)]
pub struct GroupParts {
    pub places: Vec<u32>,
    pub aggs: Vec<Agg>,
}

/// The keys and the results' aggregates with numbers.
pub fn bind_parts(
    alloc: Global,
    names: &[Name],
    keys: &[Name],
    results: &[NamedResult],
) -> Result<GroupParts, BindRefusal>
    ensures { Resolves parts_of result
        (of_both (λ places aggs. Some (places, aggs)) (all_there (map (place_of names.now) keys.now))
        (all_there (map (λ result. bound_agg names.now result.agg) results.now))) }
{
    let places = bind_all(alloc, names, keys)?;
    let aggs = bind_all(alloc, names, results)?;
    Ok(GroupParts { places, aggs })
}

/// What has numbers in place of names, among columns with these names.
pub trait Bind {
    type Bound: Drop;

    ghost bound: { Names → Self → Option Self.Bound };

    fn bind(&self, names: &[Name]) -> Result<Self::Bound, BindRefusal>
        ensures { Resolves (λ bound. bound) result (bound names.now self.now) };
}

impl Bind for Name {
    type Bound = u32;

    ghost bound = { place_of };

    fn bind(&self, names: &[Name]) -> Result<u32, BindRefusal> {
        place_of(names, self.bytes())
    }
}

impl Bind for NamedKey {
    type Bound = Key;

    ghost bound = { bound_key };

    fn bind(&self, names: &[Name]) -> Result<Key, BindRefusal> {
        let down = self.down;
        let column = place_of(names, self.column.bytes())?;
        Ok(Key { column, down })
    }
}

impl Bind for NamedResult {
    type Bound = Agg;

    ghost bound = { λ names result. bound_agg names result.agg };

    fn bind(&self, names: &[Name]) -> Result<Agg, BindRefusal> {
        bind_agg(names, &self.agg)
    }
}

/// The items with numbers.
#[tactic(auto, using(plan_core::specs::AllThere::found))]
pub fn bind_all<T: Bind>(
    alloc: Global,
    names: &[Name],
    items: &[T],
) -> Result<Vec<T::Bound>, BindRefusal>
    ensures { Resolves items_of result (all_there (map (T.bound names.now) items.now)) }
{
    let mut found = Vec::with_capacity(alloc, items.len())?;
    for named in items {
        let bound = named.bind(names)?;
        push(&mut found, bound)?;
    }
    Ok(found)
}

/// The pairs with numbers, of a left and of a right name.
#[tactic(auto, using(plan_core::specs::AllThere::found))]
pub fn bind_pairs(
    alloc: Global,
    lefts: &[Name],
    rights: &[Name],
    pairs: &[NamedPair],
) -> Result<Vec<(u32, u32)>, BindRefusal>
    ensures { Resolves items_of result (all_there (map (bound_pair lefts.now rights.now) pairs.now)) }
{
    let mut found = Vec::with_capacity(alloc, pairs.len())?;
    for pair in pairs {
        let places = bind_pair(lefts, rights, pair)?;
        push(&mut found, places)?;
    }
    Ok(found)
}

fn bind_pair(lefts: &[Name], rights: &[Name], pair: &NamedPair) -> Result<(u32, u32), BindRefusal>
    ensures { Resolves (λ places. places) result (bound_pair lefts.now rights.now pair.now) }
{
    let left = place_of(lefts, pair.left.bytes())?;
    let right = place_of(rights, pair.right.bytes())?;
    Ok((left, right))
}

fn bind_agg(names: &[Name], agg: &NamedAgg) -> Result<Agg, BindRefusal>
    ensures { Resolves (λ bound. bound) result (bound_agg names.now agg.now) }
{
    match agg {
        NamedAgg::Count => Ok(Agg::Count),
        NamedAgg::Of(function, column) => {
            let place = place_of(names, column.bytes())?;
            Ok(column_agg(*function, place))
        }
    }
}

/// The aggregate of the column at the place.
fn column_agg(function: AggFunction, place: u32) -> Agg
    ensures { result ≡ column_agg function place }
{
    match function {
        AggFunction::Sum => Agg::Sum(place),
        AggFunction::Min => Agg::Min(place),
        AggFunction::Max => Agg::Max(place),
        AggFunction::First => Agg::First(place),
        AggFunction::Last => Agg::Last(place),
        AggFunction::Avg => Agg::Avg(place),
    }
}
