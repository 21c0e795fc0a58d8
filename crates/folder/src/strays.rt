//! The files that nothing names, and their removal.
ghost use Rattle.std.specs.Prelude.{◌≡◌, ◌≢◌, ◌⊎◌, ℕ, ◌<◌, true, IsTrue, IfOk, IfSome, OnOk, OnErr};
ghost use Rattle.std.specs.List.Sorted.{IsNonDecreasing};
ghost use Rattle.outside_traits.specs.Counts.{Rose};
ghost use Rattle.outside_traits.specs.View.{View, Counts};
ghost use Rattle.outside_traits.specs.Calls.{MayRaiseRemoves, Rises};
ghost use Rattle.folder.specs.Strays.{is_named, ChangesStrays, OnlyNamed, OnlyNamedBelow, end_of};

use outside_traits::{Failed, Store};

/// Removes each file of the store whose number isn't one of these, which stand in ascending order; it goes
/// upwards. A removal that fails is let pass, since such a file is in nobody's way. `Failed` comes only where
/// the store failed to tell the next file. It takes no memory.
pub fn remove_strays<D: Store>(store: &mut D, named: &[u64]) -> Result<(), Failed>
    requires { IsNonDecreasing named.now }
    // No named file is changed, nor what a crash since leaves of one.
    ensures alone { ChangesStrays named.now (D.view store.old) (D.view store.new) }
    // After `Ok` only named files are there, unless a removal failed.
    ensures gone { IsTrue D.tells
        → OnOk result (Rose (D.counts store.old).removes (D.counts store.new).removes
        ⊎ OnlyNamed (D.view store.new) named.now) }
    ensures cause { OnErr result (Rose (D.counts store.old).reads (D.counts store.new).reads) }
    ensures no_fault { OnOk result ((D.counts store.new).reads ≡ (D.counts store.old).reads) }
    ensures writes { (D.counts store.new).writes ≡ (D.counts store.old).writes }
    ensures taken { (D.counts store.new).taken ≡ (D.counts store.old).taken }
    ensures counts { Rises (D.counts store.old) (D.counts store.new) }
{
    let mut from = Some(0);
    while let Some(start) = from {
        from = remove_next(store, named, start)?;
    }
    Ok(())
}

// Looks at the least file at or above `from`, and removes it if nothing names it. Gives the number to look on
// from, where there may be more.
fn remove_next<D: Store>(store: &mut D, named: &[u64], from: u64) -> Result<Option<u64>, Failed>
    requires { IsNonDecreasing named.now }
    ensures further { IfOk result (λ next. IfSome next (λ start. from < start)) }
    ensures alone { ChangesStrays named.now (D.view store.old) (D.view store.new) }
    ensures gone { IsTrue D.tells → OnlyNamedBelow from (D.view store.old) named.now
        → IfOk result (λ next. Rose (D.counts store.old).removes (D.counts store.new).removes
        ⊎ OnlyNamedBelow (end_of next) (D.view store.new) named.now) }
    ensures cause { OnErr result (Rose (D.counts store.old).reads (D.counts store.new).reads) }
    ensures no_fault { OnOk result ((D.counts store.new).reads ≡ (D.counts store.old).reads) }
    ensures writes { (D.counts store.new).writes ≡ (D.counts store.old).writes }
    ensures taken { (D.counts store.new).taken ≡ (D.counts store.old).taken }
    ensures counts { Rises (D.counts store.old) (D.counts store.new) }
{
    let Some(file) = store.next_file(from)? else {
        return Ok(None);
    };
    remove_stray(store, named, file);
    Ok(file.checked_add(1))
}

// Removes the file if nothing names it.
fn remove_stray<D: Store>(store: &mut D, named: &[u64], file: u64)
    requires { IsNonDecreasing named.now }
    ensures alone { ChangesStrays named.now (D.view store.old) (D.view store.new) }
    ensures others { (g : ℕ) → g ≢ file → (D.view store.new).there g ≡ (D.view store.old).there g }
    ensures gone { IsTrue D.tells → Rose (D.counts store.old).removes (D.counts store.new).removes
        ⊎ ((D.view store.new).there file ≡ true → IsTrue (is_named named.now file)) }
    ensures counts { MayRaiseRemoves (D.counts store.old) (D.counts store.new) }
{
    if !is_named(named, file) {
        let _ = store.remove(file);
    }
}

fn is_named(named: &[u64], file: u64) -> bool
    requires { IsNonDecreasing named.now }
    ensures { result ≡ is_named named.now file }
{
    named.binary_search(&file).is_ok()
}
