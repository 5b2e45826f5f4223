//! The limits of runs.

ghost use Rattle.std.specs.Prelude.{◌≡◌};
ghost use Rattle.goal_forms.specs.Steps.FormSteps.{allowed_limit, small_number};
ghost use Rattle.goal_forms.specs.Parts.{sites, site_at};

use crate::flat_data::{FlatData, Part};

/// The limit of a run: a number or none, where it is allowed.
pub fn limit(flat: &FlatData, place: u32) -> Option<Option<u64>>
    ensures { result ≡ allowed_limit (site_at (sites flat.now) place) }
{
    match flat.read(place).part {
        Part::Truth(false) => Some(None),
        Part::Number(number) => Some(Some(small_number(number)?)),
        _ => None,
    }
}

// A number from 0 to 2^63 - 1.
fn small_number(number: i128) -> Option<u64>
    ensures { result ≡ small_number number }
{
    if number < 0 || number >= 1 << 63 {
        return None;
    }
    Some(number as u64)
}
