// The locals of a body (WebAssembly Core 1.0, 5.5.13).

ghost use Rattle.std.specs.Prelude.{List, ℕ};
ghost use Rattle.syntax.specs.Binary.{Locals, group as spells_group};
ghost use Rattle.decode.specs.Inner.Reading.{ReadsText, ReadsBy};
ghost use Rattle.decode.specs.Inner.Locals.{LocalsOf, as_pair};

use crate::fault::DecodeFault;
use crate::integers::unsigned;
use crate::stop::ReadingStop;
use crate::types::val_type;
use limits::MAX_LOCALS;
use std::alloc::Global;
use syntax::items::Items;
use syntax::types::ValType;

/// So many locals of one type.
#[derive(Clone, Copy)]
pub(crate) struct LocalGroup {
    pub count: u32,
    pub value_type: ValType,
}

/// The locals of a body, which stand in groups.
pub(crate) fn locals(alloc: Global, bytes: &[u8]) -> Result<(Items<ValType>, &[u8]), ReadingStop>
    ensures { ReadsText Locals bytes.now result }
{
    let (groups, rest) = unsigned(bytes)?;
    if groups as usize > rest.len() {
        return Err(ReadingStop::at_end(DecodeFault::End));
    }
    read_groups(alloc, rest, groups)
}

/// The locals of so many groups. No group takes memory before its count is known to fit.
fn read_groups(
    alloc: Global,
    bytes: &[u8],
    groups: u32,
) -> Result<(Items<ValType>, &[u8]), ReadingStop>
    ensures { ReadsText (LocalsOf groups) bytes.now result }
{
    let mut all = Vec::new(alloc);
    let mut rest = bytes;
    for _ in 0..groups {
        let (next, behind) = group(rest)?;
        if next.count as usize > MAX_LOCALS - all.len() {
            return Err(ReadingStop::behind(DecodeFault::Limit, behind));
        }
        all.resize(all.len() + next.count as usize, next.value_type)?;
        rest = behind;
    }
    Ok((Items::from_vec(all), rest))
}

fn group(bytes: &[u8]) -> Result<(LocalGroup, &[u8]), ReadingStop>
    ensures { ReadsBy as_pair spells_group bytes.now result }
{
    let (count, rest) = unsigned(bytes)?;
    let (value_type, rest) = val_type(rest)?;
    Ok((LocalGroup { count, value_type }, rest))
}
