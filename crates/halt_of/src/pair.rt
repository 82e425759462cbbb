// The halt of a T line by the relocated form, and of the line behind it.
ghost use Rattle.std.specs.Prelude.{◌≡◌, ◌+◌, ◌<◌, ◌^◌, length};
ghost use Rattle.numbers.specs.Told.{code};
ghost use Rattle.header.specs.Told.{form_of};
ghost use Rattle.halt.specs.Halt.{pair_halt};
ghost use Rattle.line_halt.specs.Told.{told_halt};
ghost use Rattle.halt_of.specs.Told.{line_with};

use header::Form;
use line_halt::Halt;
use numbers::Reason;
use relocation_halt::relocation_halt;

// A reason's number.
fn number_of(reason: Reason) -> u8
    ensures { result ≡ code reason }
{
    reason as u8
}

// A T line with a line end of so many bytes, and the line behind it; places count from the T.
pub(crate) fn pair_halt(t: &[u8], ends: usize, r: &[u8], form: Form) -> Halt
    requires { length t.now + ends + length r.now < 2 ^ 64 }
    ensures { told_halt result ≡ pair_halt (form_of form) (line_with t.now ends) (line_with r.now 0) }
{
    let mut out = [0u8; 256];
    match pair_line::whole_content(t, form, &mut out) {
        Err(halt) => Halt {
            reason: number_of(halt.reason),
            at: halt.at,
        },
        Ok(content) => {
            if ends == 0 {
                return Halt {
                    reason: 4,
                    at: content.used,
                };
            }
            let h = relocation_halt(r, form);
            Halt {
                reason: h.reason,
                at: t.len() + ends + h.at,
            }
        }
    }
}
