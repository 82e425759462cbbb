// The whole reading of a module's text, plain, ended, or ended and of every radix: areas, symbols, images and fixups into five lent buffers, or a refusal that changes none of them.
#![tactic(auto)]

ghost use Rattle.std.specs.Prelude.{false, true};
ghost use Rattle.format.specs.Held.{Meets};
ghost use Rattle.any_radix.specs.ReadAny.{MeetsAny};
ghost use Rattle.answer.specs.Answer.{held, told};

use answer::Answer;

mod whole;

// The plain reading: it ends at the first byte that it cannot take.
pub fn read_plain(
    text: &[u8],
    areas: &mut [u32],
    symbols: &mut [u32],
    values: &mut [u8],
    masks: &mut [u8],
    fixups: &mut [u32],
) -> Answer
    ensures { Meets false text.now (held areas.old symbols.old values.old masks.old fixups.old) (told result) (held areas.new symbols.new values.new masks.new fixups.new) }
{
    whole::read(text, false, false, areas, symbols, values, masks, fixups)
}

// The ended reading: a record counts only if a full line end stands behind it.
pub fn read_ended(
    text: &[u8],
    areas: &mut [u32],
    symbols: &mut [u32],
    values: &mut [u8],
    masks: &mut [u8],
    fixups: &mut [u32],
) -> Answer
    ensures { Meets true text.now (held areas.old symbols.old values.old masks.old fixups.old) (told result) (held areas.new symbols.new values.new masks.new fixups.new) }
{
    whole::read(text, false, true, areas, symbols, values, masks, fixups)
}

// The ended reading without 18: a header of every radix is taken.
pub fn read_any(
    text: &[u8],
    areas: &mut [u32],
    symbols: &mut [u32],
    values: &mut [u8],
    masks: &mut [u8],
    fixups: &mut [u32],
) -> Answer
    ensures { MeetsAny text.now (held areas.old symbols.old values.old masks.old fixups.old) (told result) (held areas.new symbols.new values.new masks.new fixups.new) }
{
    whole::read(text, true, true, areas, symbols, values, masks, fixups)
}
