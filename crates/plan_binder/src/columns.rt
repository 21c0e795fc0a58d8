//! The columns of a result.
ghost use Rattle.std.specs.Prelude.{◌≡◌, ◌++◌, IfOk};

use rows_core::{Kind, Memory, Name, Seq};

/// The names and kinds of a result's columns.
#[derive(Drop)]
pub struct Columns {
    pub names: Seq<Name>,
    pub kinds: Seq<Kind>,
}

impl Columns {
    pub fn new(names: Vec<Name>, kinds: Vec<Kind>) -> Columns
        ensures { result ≡ record { names = names.items; kinds = kinds.items } }
    {
        Columns {
            names: Seq::new(names),
            kinds: Seq::new(kinds),
        }
    }
}

/// The left columns and then the right ones.
pub fn joined_columns(left: Columns, right: Columns) -> Result<Columns, Memory>
    ensures { IfOk result
        (λ found. found
        ≡ record { names = left.names ++ right.names; kinds = left.kinds ++ right.kinds }) }
{
    let names = joined_names(left.names, right.names)?;
    let kinds = joined_kinds(left.kinds, right.kinds)?;
    Ok(Columns::new(names, kinds))
}

fn joined_names(left: Seq<Name>, right: Seq<Name>) -> Result<Vec<Name>, Memory>
    ensures { IfOk result (λ names. names.items ≡ left ++ right) }
{
    let mut names = left.into_vec();
    let mut others = right.into_vec();
    names.append(&mut others)?;
    Ok(names)
}

fn joined_kinds(left: Seq<Kind>, right: Seq<Kind>) -> Result<Vec<Kind>, Memory>
    ensures { IfOk result (λ kinds. kinds.items ≡ left ++ right) }
{
    let mut kinds = left.into_vec();
    kinds.extend_from_slice(right.items())?;
    Ok(kinds)
}
