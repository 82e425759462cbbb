// What a listing says of an area: its kind with the base, its id, and the value and mask of a position.
#![tactic(auto)]

ghost use Rattle.std.specs.Prelude.{◌≡◌, get_or};
ghost use Rattle.hexadecimal.specs.Hex.{value_and_mask};
ghost use Rattle.format.specs.Tables as the;
ghost use Rattle.laws.specs.Rows.{area_at, areas_in};
ghost use Rattle.sink.specs.Sinks.{Adds};
ghost use Rattle.area_line.specs.Lines.{AddsId, kind_text};

use sink::{Buffer, Sink};

// Whether an area is relocatable or absolute, and the base of an absolute one.
pub fn kind(s: Sink, out: &mut Buffer, areas: &[u32], i: usize) -> Sink
    ensures { Adds s out.old (kind_text (area_at areas.now i)) result out.new }
{
    if area_rows::is_absolute(areas, i) {
        return texts::hex8(
            s,
            out,
            b" absolute ",
            cells::wide(area_rows::base(areas, i)),
        );
    }
    sink::put(s, out, b" relocatable")
}

// The id of a kept area, among n areas.
pub fn id(s: Sink, out: &mut Buffer, areas: &[u32], n: usize, i: usize) -> Sink
    ensures { AddsId s out.old (the.rank 0 (areas_in areas.now n) i) result out.new }
{
    match kept_areas::area_id(areas, n, i) {
        Some(id) => texts::decimal(s, out, b" id ", id),
        None => s,
    }
}

// A position's value and mask, two digits each.
pub fn position(s: Sink, out: &mut Buffer, values: &[u8], masks: &[u8], i: usize) -> Sink
    ensures { Adds s out.old (value_and_mask (get_or values.now i 0) (get_or masks.now i 0)) result out.new }
{
    let value = cells::byte_at(values, i);
    let mask = cells::byte_at(masks, i);
    sink::put(
        s,
        out,
        &hexadecimal::value_and_mask(value as usize, mask as usize),
    )
}
