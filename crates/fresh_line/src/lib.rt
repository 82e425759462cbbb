// The work line of a pair before its fragments are worked in: its content with full masks, all of it kept.
// Here bs are the content bytes; wv, wm and wk the work line's values, masks and kept flags.
#![tactic(auto)]

ghost use Rattle.std.specs.Prelude.{◌≡◌, ◌≤◌, length, take, replicate};
ghost use Rattle.format.specs.WorkLine.{padded};
ghost use Rattle.sites.specs.Site.{line_fits, Short};
ghost use Rattle.fresh_line.specs.Fresh.{LaidLine};

use cells::{copy_bytes, fill_bytes};
use sites::{Line, line_fits};

// An array that is all 0.
fn blank(w: &mut [u8; 260])
    ensures { w.new ≡ replicate 260 0 }
{
    fill_bytes(w, 0, 260, 0);
}

// The content laid into an array that is all 0 besides.
fn lay_content(line: Line, bs: &[u8], wv: &mut [u8; 260])
    requires short { Short line }
    requires bytes_in_bounds { line.bytes ≤ length bs.now }
    ensures { wv.new ≡ padded line.width line.bytes (take line.bytes bs.now) }
{
    blank(wv);
    copy_bytes(wv, line.width, bs, line.bytes);
}

// A byte laid where the content is, and 0 besides.
fn lay_byte(line: Line, v: u8, w: &mut [u8; 260])
    requires { Short line }
    ensures { w.new ≡ padded line.width line.bytes (replicate line.bytes v) }
{
    blank(w);
    fill_bytes(w, line.width, line.bytes, v);
}

// The content laid into all three arrays, and whether it is: where the line is not within the bounds, or fewer bytes are lent, nothing changes.
pub fn lay_line(
    line: Line,
    bs: &[u8],
    wv: &mut [u8; 260],
    wm: &mut [u8; 260],
    wk: &mut [u8; 260],
) -> bool
    ensures { (result ≡ line_fits line (length bs.now)) × LaidLine line bs.now wv.old wm.old wk.old wv.new wm.new wk.new }
{
    if !line_fits(line, bs.len()) {
        return false;
    }
    lay_content(line, bs, wv);
    lay_byte(line, 255, wm);
    lay_byte(line, 1, wk);
    true
}
