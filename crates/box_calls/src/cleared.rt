// What a clear leaves of the running box: run memory.
ghost use Rattle.std.specs.Prelude.{◌≡◌, replicate};

use memory_run::layout::*;

// Run memory of a clear.
pub fn clear_run(run: &mut Run, last: &mut Last)
    ensures { (run.new ≡ replicate 96 0) × (last.new ≡ replicate 1 0) }
{
    *run = [0u64; RUN];
    *last = [0u8; LAST];
}
