//! What holds of the dry run as a whole: run twice it gives the same, and for a host of the exported function it says what the
//! call does. The statements on the host are in specs/, their proofs in proofs/.
#![tactic(auto)]

ghost use Rattle.std.specs.Prelude.{◌≡◌};
ghost use Rattle.dryrun.specs.Call.{lent};

use dryrun::{DryDone, DryError};
use twice::Twice;

pub fn dry_run(
    mode: u32,
    clips: &[u64],
    file: &[u8],
    blocks: &[u64],
    records: &mut [u64; 1280],
    reasons: &mut [u64; 256],
    queue: &mut [u64; 1280],
    sheet: &mut [u64; 2560],
    clips2: &[u64],
    file2: &[u8],
    blocks2: &[u64],
    records2: &mut [u64; 1280],
    reasons2: &mut [u64; 256],
    queue2: &mut [u64; 1280],
    sheet2: &mut [u64; 2560],
) -> Twice<Result<DryDone, DryError>>
    requires { (clips.now ≡ clips2.now) × (file.now ≡ file2.now) × (blocks.now ≡ blocks2.now) × (lent records.old reasons.old queue.old sheet.old ≡ lent records2.old reasons2.old queue2.old sheet2.old) }
    ensures { (result.0 ≡ result.1) × (lent records.new reasons.new queue.new sheet.new ≡ lent records2.new reasons2.new queue2.new sheet2.new) }
{
    let one = dryrun::dry_run(mode, clips, file, blocks, records, reasons, queue, sheet);
    let other = dryrun::dry_run(
        mode, clips2, file2, blocks2, records2, reasons2, queue2, sheet2,
    );
    Twice(one, other)
}
