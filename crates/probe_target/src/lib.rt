// Targets for a program in Rust that holds them against the source's: one, a corrected one, one with a lent table of class numbers, and a row of them.
#![tactic(auto)]

ghost use Rattle.std.specs.Prelude.{◌≡◌, ◌%◌, get_or, set};
ghost use Rattle.format.specs.Target.{target};
ghost use Rattle.format.specs.Corrected.{corrected};
ghost use Rattle.mode.specs.Class.{class_named};
ghost use Rattle.target.specs.Target.{target_by};
ghost use Rattle.target_asked.specs.Asked.{told};
ghost use Rattle.probe_target.specs.Probe.{RowThere, Rows, row_target, rows_in, target_answer};

use target_asked::Refusal;

// The address, or the number and the place of a refusal.
#[repr(C)]
#[derive(Clone, Copy)]
pub struct TargetAnswer {
    pub refused: u32,
    pub place: u64,
    pub address: u64,
}

// A target's answer in numbers.
fn target_answer(answer: Result<u64, Refusal>) -> TargetAnswer
    ensures { result ≡ target_answer (told answer) }
{
    match answer {
        Ok(address) => TargetAnswer {
            refused: 0,
            place: 0,
            address,
        },
        Err(Refusal { number, place }) => TargetAnswer {
            refused: number,
            place,
            address: 0,
        },
    }
}

// The target, its class by the bits of its mode.
#[unsafe(no_mangle)]
pub extern "C" fn probe_target(
    mode: u32,
    big: bool,
    number: u32,
    address: u64,
    bytes: &[u8],
) -> TargetAnswer
    ensures { result ≡ target_answer (target big mode number bytes.now address) }
{
    let answer = target::target(mode, big, number, address, bytes);
    target_answer(answer)
}

// The corrected target.
#[unsafe(no_mangle)]
pub extern "C" fn probe_corrected(
    mode: u32,
    big: bool,
    number: u32,
    address: u64,
    bytes: &[u8],
) -> TargetAnswer
    ensures { result ≡ target_answer (corrected big mode number bytes.now address) }
{
    let answer = corrected::corrected_target(mode, big, number, address, bytes);
    target_answer(answer)
}

// The target by a lent table.
#[unsafe(no_mangle)]
pub extern "C" fn probe_target_in(
    table: &[u8; 2048],
    mode: u32,
    big: bool,
    number: u32,
    address: u64,
    bytes: &[u8],
) -> TargetAnswer
    ensures { result ≡ target_answer (target_by (class_named (get_or table.now (mode % 2048) 0)) big mode number bytes.now address) }
{
    let answer = target::target_in(table, mode, big, number, address, bytes);
    target_answer(answer)
}

// How many whole rows all the columns have: one number in each, and four bytes.
#[tactic(auto, unfolding(crate::specs::Probe::rows_in))]
fn rows(modes: usize, numbers: usize, addresses: usize, bytes: usize, out: usize) -> usize
    ensures { result ≡ rows_in modes numbers addresses bytes out }
{
    modes.min(numbers).min(addresses.min(bytes / 4)).min(out)
}

// The target of one row, or the number of its refusal.
fn row_target(
    table: &[u8; 2048],
    big: bool,
    i: usize,
    modes: &[u32],
    numbers: &[u32],
    addresses: &[u64],
    bytes: &[u8],
) -> u64
    requires { RowThere table.now modes.now numbers.now addresses.now bytes.now i }
    ensures { result ≡ row_target big modes.now numbers.now addresses.now bytes.now i }
{
    let a = 4 * i;
    let e = a + 4;
    let answer = target::target_in(table, modes[i], big, numbers[i], addresses[i], &bytes[a..e]);
    match answer {
        Ok(address) => address,
        Err(refusal) => u64::from(refusal.number),
    }
}

// A store; past the end it changes nothing.
fn put(out: &mut [u64], i: usize, value: u64)
    ensures { out.new ≡ set out.old i value }
{
    if i < out.len() {
        out[i] = value;
    }
}

// A row of targets, or of the numbers of their refusals, by one table; how many rows there were.
#[unsafe(no_mangle)]
pub extern "C" fn probe_targets(
    big: bool,
    modes: &[u32],
    numbers: &[u32],
    addresses: &[u64],
    bytes: &[u8],
    out: &mut [u64],
) -> usize
    ensures { Rows big modes.now numbers.now addresses.now bytes.now out.old result out.new }
{
    let table = mode::class_table();
    let n = rows(
        modes.len(),
        numbers.len(),
        addresses.len(),
        bytes.len(),
        out.len(),
    );
    for i in 0..n {
        let value = row_target(&table, big, i, modes, numbers, addresses, bytes);
        put(out, i, value);
    }
    n
}
