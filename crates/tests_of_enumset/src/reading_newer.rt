//! Flags that an older program reads.

ghost use Rattle.std.specs.Prelude.{◌≡◌, IsTrue, IfOk, IfErr};
ghost use Rattle.enumset.specs.Sets as set;
ghost use Rattle.enumset.specs.Names.{names_of, names_agree};
ghost use Rattle.enumset.specs.declared.set_json.fault.JsonFault.TheVariants.{OutOfMemory};
ghost use Rattle.enumset.specs.Sets.{valid_bits};

use enumset::set_json::{JsonFault, Unknown, from_list_text, to_list_text};
use enumset::{EnumSet, EnumSetNames, laws};
use std::alloc::Global;

/// Sends flags as the text of a list to a program with an older type, which reads the flags that it knows.
pub fn read_by_older<Old: EnumSetNames, New: EnumSetNames>(
    alloc: Global,
    flags: &EnumSet<New>,
) -> Result<EnumSet<Old>, JsonFault>
    requires { IsTrue (names_agree (names_of Old.elements Old.names)
        (names_of New.elements New.names)) }
    ensures known { IfOk result (λ read.
        read ≡ set.intersection flags.now (valid_bits Old.elements)) }
    ensures fault { IfErr result (λ fault. fault ≡ OutOfMemory) }
{
    laws::older_reader_of_names::<Old, New>(flags, Unknown::Drop);
    let text = to_list_text(alloc, flags)?;
    from_list_text(alloc, text.as_str(), Unknown::Drop)
}
