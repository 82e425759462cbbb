// The mode step, with the class out of a lent table of class numbers.
ghost use Rattle.std.specs.Prelude.{◌≡◌, ◌%◌, get_or};
ghost use Rattle.format.specs.Mode.{bit};
ghost use Rattle.mode.specs.Class.{class_named};
ghost use Rattle.mode_step.specs.Step.{told_step};
ghost use Rattle.probe_mode.specs.Probe.{Probed, step_answer};

// 1 and the number that a step made, or 0 and 0 where a part was too short.
#[repr(C)]
#[derive(Clone, Copy)]
pub struct StepAnswer {
    pub done: u32,
    pub number: u32,
}

// A step's answer in numbers.
fn step_answer(step: Option<u32>) -> StepAnswer
    ensures { result ≡ step_answer (told_step step) }
{
    match step {
        Some(number) => StepAnswer { done: 1, number },
        None => StepAnswer { done: 0, number: 0 },
    }
}

// The mode step on three parts, by the class that the table has for the mode.
#[unsafe(no_mangle)]
pub extern "C" fn probe_step(
    table: &[u8; 2048],
    mode: u32,
    big: bool,
    values: &mut [u8],
    masks: &mut [u8],
    kept: &mut [u8],
) -> StepAnswer
    ensures { Probed (class_named (get_or table.now (mode % 2048) 0)) (bit 8 mode) big result values.old masks.old kept.old values.new masks.new kept.new }
{
    let class = mode::class_in(table, mode);
    let three = mode / 256 % 2 == 1;
    let step = mode_step::modify_cmf_to_fixup(class, three, big, values, masks, kept);
    step_answer(step)
}
