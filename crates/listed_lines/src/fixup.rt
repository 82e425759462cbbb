// The lines of fixups.
use sink::{Buffer, Sink};

// The lines of the fixups of an area, by its id, among n fixups, in the order of the rows.
pub(crate) fn lines(
    s: Sink,
    out: &mut Buffer,
    text: &[u8],
    fixups: &[u32],
    n: usize,
    id: usize,
) -> Sink {
    let range = fixup_rows::area_fixups(fixups, n, id);
    let mut now = s;
    for j in range.start..range.end {
        now = fixup_line::line(
            now,
            out,
            fixup_rows::fixup_at(fixups, j),
            fixup_rows::fixup_name(text, fixups, j),
        );
    }
    now
}
