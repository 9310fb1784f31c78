// The plan as a file again and the verdict as a line, as C calls for them.
ghost use Rattle.spwd_c.specs.Exports.{Prints, OutWritten};

use c_numbers::copied::sized_numbers;
use c_numbers::verdict::verdict_of;
use memory_plan::layout::*;
use out_plan::out::write_out;
use out_verdict::print::print_verdict;

// "Writing out answers 0 and the size; room beyond it keeps its bytes."
#[unsafe(no_mangle)]
pub extern "C" fn spwd_c_write_out(
    sets: &Sets,
    ends: &Ends,
    rows: &Rows,
    paths: &Paths,
    spans: &Spans,
    aims: &Aims,
    numbers: &Numbers,
    out: &mut [u8],
    answer: &mut [u32; 2],
)
    ensures { OutWritten sets.now ends.now rows.now paths.now spans.now aims.now numbers.now out.old out.new answer.new }
{
    let copied = write_out(sets, ends, rows, paths, spans, aims, numbers, out);
    *answer = sized_numbers(copied);
}

// Puts the printed line of a verdict's five numbers into the buffer, and answers its length. The rest of the buffer keeps its bytes.
#[unsafe(no_mangle)]
pub extern "C" fn spwd_c_print(verdict: &[u32; 5], line: &mut [u8; 40]) -> usize
    ensures { Prints verdict.now line.old line.new result }
{
    print_verdict(line, verdict_of(verdict))
}
