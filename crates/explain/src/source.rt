// Where the module comes from: standard input, which is called `-`, or a file by its name.
use console::Room;
use host::Host;
use position_lines::Asked;
use rooms::INPUT_ROOM;
use sink::Buffer;

// Explains a position of the first n bytes of the room.
fn explain_first(out: &mut Buffer, room: &Room, n: usize, name: &[u8], asked: Asked) {
    position_lines::tell(out, sink::first_bytes(room, n), name, asked)
}

// Explains a position of the module on standard input.
fn explain_standard(rt: &impl Host, asked: Asked) {
    let mut out = io::large_buffer();
    let mut room = [0u8; INPUT_ROOM];
    match console::fill(&mut rt.reader(), &mut room) {
        Ok(n) => explain_first(&mut out, &room, n, b"-", asked),
        Err(why) => console::tell_reason(b"-", why),
    }
}

// Explains a position of a module under the name that the i-th argument gives.
fn explain_named(rt: &impl Host, room: &Room, n: usize, i: usize, asked: Asked) {
    let mut out = io::large_buffer();
    let mut name = io::buffer();
    let k = host::argument_or_none(rt, i, &mut name);
    explain_first(&mut out, room, n, sink::first_bytes(&name, k), asked)
}

// Explains a position of the module that the i-th argument names, or of the one on standard input where there is none.
pub(crate) fn explain_argument(rt: &impl Host, asked: Asked, i: usize, count: usize) {
    if count <= i {
        return explain_standard(rt, asked);
    }
    let mut room = [0u8; INPUT_ROOM];
    if let Ok(n) = argument_text::fetch(rt, i, &mut room) {
        explain_named(rt, &room, n, i, asked)
    }
}
