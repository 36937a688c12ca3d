//! A word of a line as a name.
ghost use Rattle.std.specs.Prelude.{◌≡◌, IfOk};
ghost use Rattle.std.specs.Str.{IsUtf8};

use cgm_base::OutOfMemory;
use cgm_model::Name;
use std::alloc::Global;

/// The name with this word's bytes.
pub(crate) fn name_of(alloc: Global, word: &[u8]) -> Result<Name, OutOfMemory>
    requires text { IsUtf8 word.now }
    ensures { IfOk result (λ name. name ≡ word.now) }
{
    Ok(Name::of(String::from_utf8_lossy(alloc, word)?))
}
