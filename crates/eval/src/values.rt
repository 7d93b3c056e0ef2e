// Numbers among those of a name.
ghost use Rattle.std.specs.Prelude.{◌≡◌};
ghost use Rattle.std.specs.Option.{option_map};
ghost use Rattle.std.specs.Result.{result_ok};
ghost use Rattle.eval.specs.Numbers.{number_of, element_in};

use crate::failure::{Failure, Reason};
use lang::code::Place;

// The number, if there is one only.
#[tactic(auto, using(crate::proofs::Numbers::only))]
pub fn number(values: Option<&[u64]>, at: Place) -> Result<u64, Failure>
    ensures { result_ok result ≡ number_of (option_map (λ x. x.now) values.entry) }
{
    match values {
        Some(row) if row.len() == 1 => Ok(row[0]),
        _ => Err(Reason::Undefined.at(at)),
    }
}

// The number at a place of a row.
pub fn element(
    values: Option<&[u64]>,
    place: Result<u64, Failure>,
    at: Place,
) -> Result<u64, Failure>
    ensures { result_ok result ≡ element_in (option_map (λ x. x.now) values.entry) (result_ok place) }
{
    let i = place?;
    let row = values.ok_or(Reason::Undefined.at(at))?;
    let n = row.get(i as usize).ok_or(Reason::OutsideRow.at(at))?;
    Ok(*n)
}
