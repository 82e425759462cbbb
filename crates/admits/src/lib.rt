// Whether the ended reading accepts a text, as it is or with a header of every radix taken, read into arrays that nobody sees.
#![tactic(auto)]

ghost use Rattle.std.specs.Prelude.{length};
ghost use Rattle.admission.specs.Admits.{GateIs, GateIsAny};
ghost use Rattle.admits.specs.Room.{LentRoom};

use admission::{Gate, answered};
use rooms::{FIXUP_ROOM, IMAGE_ROOM, SYMBOL_ROOM};

// Whether the ended reading accepts a text, with buffers that have room.
fn admit_with(
    t: &[u8],
    areas: &mut [u32],
    symbols: &mut [u32],
    values: &mut [u8],
    masks: &mut [u8],
    fixups: &mut [u32],
) -> Gate
    requires { LentRoom (length areas.old) (length symbols.old) (length values.old) (length masks.old) (length fixups.old) }
    ensures { GateIs t.now result }
{
    answered(reading::read_ended(t, areas, symbols, values, masks, fixups))
}

// The same, with buffers of its own; what they hold afterwards is not asked for.
pub fn admit(t: &[u8]) -> Gate
    ensures { GateIs t.now result }
{
    let mut areas = [0u32; 512];
    let mut symbols = [0u32; SYMBOL_ROOM];
    let mut values = [0u8; IMAGE_ROOM];
    let mut masks = [0u8; IMAGE_ROOM];
    let mut fixups = [0u32; FIXUP_ROOM];
    admit_with(
        t,
        &mut areas,
        &mut symbols,
        &mut values,
        &mut masks,
        &mut fixups,
    )
}

// Whether it accepts a text where a header of every radix is taken, with buffers that have room.
fn admit_any_with(
    t: &[u8],
    areas: &mut [u32],
    symbols: &mut [u32],
    values: &mut [u8],
    masks: &mut [u8],
    fixups: &mut [u32],
) -> Gate
    requires { LentRoom (length areas.old) (length symbols.old) (length values.old) (length masks.old) (length fixups.old) }
    ensures { GateIsAny t.now result }
{
    answered(reading::read_any(t, areas, symbols, values, masks, fixups))
}

// The same, with buffers of its own.
pub fn admit_any(t: &[u8]) -> Gate
    ensures { GateIsAny t.now result }
{
    let mut areas = [0u32; 512];
    let mut symbols = [0u32; SYMBOL_ROOM];
    let mut values = [0u8; IMAGE_ROOM];
    let mut masks = [0u8; IMAGE_ROOM];
    let mut fixups = [0u32; FIXUP_ROOM];
    admit_any_with(
        t,
        &mut areas,
        &mut symbols,
        &mut values,
        &mut masks,
        &mut fixups,
    )
}
