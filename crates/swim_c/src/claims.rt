//! An Alive from its parts, and the table of one claim.

ghost use Rattle.std.specs.Prelude.{◌≡◌, ◌∷◌, [], IfOk};
ghost use Rattle.swim_claim.specs.declared.claim.Claim.TheVariants.{Alive};
ghost use Rattle.swim_table.specs.Table.{TableOf};

use std::alloc::{AllocError, Global};
use swim_claim::{Claim, Details, Name};
use swim_table::Table;

/// The Alive of the member of this name, with these details, at the incarnation.
pub fn alive_of(
    alloc: Global,
    name: &Name,
    inc: u32,
    details: &Details,
) -> Result<Claim, AllocError>
    ensures { IfOk result (λ claim. claim ≡ Alive name.now inc details.now) }
{
    let name = name.try_clone(alloc)?;
    let details = details.try_clone(alloc)?;
    Ok(Claim::Alive { name, inc, details })
}

/// The table of this claim alone.
pub fn table_of_one(alloc: Global, claim: Claim) -> Result<Table, AllocError>
    ensures { IfOk result (λ table. TableOf table (claim ∷ [])) }
{
    let mut table = Table::new(alloc);
    match table.take(claim) {
        Ok(_) => Ok(table),
        Err((_, error)) => Err(error),
    }
}
