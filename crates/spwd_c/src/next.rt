// When the next turn of a transaction is, as C asks for it.
ghost use Rattle.spwd_c.specs.Exports.{NextTold};

use ask_next::next::next;
use c_numbers::next::next_numbers;
use memory_plan::layout::*;

#[unsafe(no_mangle)]
pub extern "C" fn spwd_c_next(
    rows: &Rows,
    aims: &Aims,
    numbers: &Numbers,
    initiator: u8,
    target: u8,
    length: u16,
    slot: u8,
    answer: &mut [u32; 2],
)
    ensures { NextTold rows.now aims.now numbers.now initiator target length slot answer.new }
{
    *answer = next_numbers(next(rows, aims, numbers, initiator, target, length, slot));
}
