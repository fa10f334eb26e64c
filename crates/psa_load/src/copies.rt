ghost use Rattle.std.specs.Prelude.{◌≡◌, IfOk};

use psa_model::{Input, Settings};
use psa_text::{Items, OutOfMemory, Text};
use std::alloc::Global;

/// A copy of settings.
pub(crate) fn copy_settings(alloc: Global, settings: &Settings) -> Result<Settings, OutOfMemory>
    ensures { IfOk result (λ made. made ≡ settings.now) }
{
    let input = copy_input(alloc, &settings.input)?;
    Ok(Settings {
        algorithm: settings.algorithm,
        mode: settings.mode,
        limit_order: settings.limit_order,
        cut_off: settings.cut_off,
        mission: settings.mission,
        rare_event: settings.rare_event,
        mcub: settings.mcub,
        ccf: settings.ccf,
        validate: settings.validate,
        node_limit: settings.node_limit,
        input,
    })
}

/// A copy of an input.
fn copy_input(alloc: Global, input: &Input) -> Result<Input, OutOfMemory>
    ensures { IfOk result (λ made. made ≡ input.now) }
{
    match input {
        Input::Files(names) => Ok(Input::Files(copy_names(alloc, names.as_slice())?)),
        Input::Sample(n) => Ok(Input::Sample(*n)),
    }
}

/// A copy of names.
fn copy_names(alloc: Global, names: &[Text]) -> Result<Items<Text>, OutOfMemory>
    ensures { IfOk result (λ made. made ≡ names.now) }
{
    let mut copies = Items::new(alloc);
    for name in names {
        copies.push(Text::from_str(alloc, name.as_str())?)?;
    }
    Ok(copies)
}
