//! What `generate` is asked for with.

ghost use Rattle.std.specs.Prelude.{◌≡◌, IfSome};
ghost use Rattle.blob_tool.specs.GenerateWords.{generated_script_in};
ghost use Rattle.blob_tool.specs.RunScripts.{IsWithinLimits};

use script_lang::number_below;

/// Which generated script is asked for.
#[derive(Clone, Copy, Debug, PartialEq, Eq)]
pub struct GeneratedScript {
    /// Its number, below 2^31, from which its lines are drawn.
    pub number: u32,
    /// How many lines are drawn, at most 65,000.
    pub size: u32,
}

/// The script of this number and this size; `None` where one isn't of its form.
pub(crate) fn generated_script(number: &str, size: &str) -> Option<GeneratedScript>
    ensures script { result ≡ generated_script_in number.now size.now }
    ensures within { IfSome result IsWithinLimits }
{
    let number = number_below(1 << 31, number.as_bytes())?;
    let size = number_below(65_001, size.as_bytes())?;
    Some(GeneratedScript {
        number: number as u32,
        size: size as u32,
    })
}
