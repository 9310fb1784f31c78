// The sheet of a transaction by itself, as C calls for it.
ghost use Rattle.spwd_c.specs.Exports.{SheetTold};

use c_numbers::sheet::sheet_numbers;
use time_sheet::{Latencies, sheet};

// What a transaction takes, whatever the numbers are. It is lent no box.
#[unsafe(no_mangle)]
pub extern "C" fn spwd_c_sheet(
    command_routers: u8,
    reply_routers: u8,
    rate: u16,
    length: u16,
    latencies: &[u32; 4],
    answer: &mut [u32; 7],
)
    ensures { SheetTold command_routers reply_routers rate length latencies.now answer.new }
{
    let given = Latencies {
        a: latencies[0],
        d: latencies[1],
        f: latencies[2],
        g: latencies[3],
    };
    *answer = sheet_numbers(sheet(command_routers, reply_routers, rate, length, given));
}
