// The lines of a list, whose fixups and symbols are read out of both texts.
use rooms::{AREA_ROOM, FIXUP_ROOM, IMAGE_ROOM, SYMBOL_ROOM};
use sink::{Buffer, Sink};

// Room for a list that no two modules fill: positions, fixups and symbols of both sides, and areas.
pub(crate) type List = [u32; 1081856];

// The symbols and fixups of a text. What the reading answers of it was told before, by the comparison.
fn read(text: &[u8], symbols: &mut [u32; SYMBOL_ROOM], fixups: &mut [u32; FIXUP_ROOM]) {
    let mut areas = [0u32; AREA_ROOM];
    let mut values = [0u8; IMAGE_ROOM];
    let mut masks = [0u8; IMAGE_ROOM];
    let _ = reading::read_ended(text, &mut areas, symbols, &mut values, &mut masks, fixups);
}

// The lines of n rows.
pub(crate) fn tell_rows<'a>(
    s: Sink,
    out: &mut Buffer,
    list: &List,
    n: usize,
    older: &'a [u8],
    newer: &'a [u8],
) -> Sink {
    let mut f = [0u32; SYMBOL_ROOM];
    let mut xs = [0u32; FIXUP_ROOM];
    read(older, &mut f, &mut xs);
    let mut g = [0u32; SYMBOL_ROOM];
    let mut ys = [0u32; FIXUP_ROOM];
    read(newer, &mut g, &mut ys);
    change_lines::lines(s, out, list, n, older, &f, &xs, newer, &g, &ys)
}
