ghost use Rattle.std.specs.Prelude.{◌≡◌, ◌++◌, OnOk};
ghost use Rattle.std.specs.Option.{option_or, option_to_list};

use psa_text::{Items, OutOfMemory};

/// Puts what was found behind the others, if anything was.
pub fn push_found<T: Drop>(all: &mut Items<T>, found: Option<T>) -> Result<(), OutOfMemory>
    ensures { OnOk result (all.new ≡ all.old ++ option_to_list found) }
{
    match found {
        Some(one) => all.push(one),
        None => Ok(()),
    }
}

/// Keeps what was found, unless something was before.
pub fn keep_first<T: Drop>(first: &mut Option<T>, found: Option<T>)
    ensures { first.new ≡ option_or first.old found }
{
    let before = first.take();
    *first = before.or(found);
}
