// Scan (document 01, "Calls"): each pass goes over the whole region and keeps a window of the matching records that
// come next; the records of a pass are then written to the output. Every function is equal to its definition in
// `definition/specs/Scan`.
#![tactic(auto)]

ghost use Rattle.std.specs.Prelude.{◌≡◌, true, ◌<◌};
ghost use Rattle.definition.specs.Region.{good};
ghost use Rattle.definition.specs.Scan.{rising};
ghost use Rattle.windows.specs.Forms.{LastHeld, last_key};
ghost use Rattle.scan.specs.Forms.{Passes, Scans};

use definition::{Fault, SCAN_WINDOW, ScanAnswer, ScanEnd, Step};
use items::Failure;
use region::Place;
use windows::ScanWindow;

// What a scan comes to: how it ended, the records and bytes in the output, and where the call stands.
#[derive(Clone, Copy)]
pub struct Listing {
    pub end: ScanAnswer,
    pub count: usize,
    pub length: usize,
    pub step: Step,
}

// ---- a pass

// One call opens, one is for each record, and one more says that there is none.
fn pass(
    region: &[u8],
    script: &[u8],
    prefix: &[u8],
    last: Option<Place>,
    step: Step,
) -> Result<(ScanWindow, Step), Failure>
    requires region_value { good region.now ≡ true }
    requires last_held { LastHeld region.now last }
    ensures { Passes rising region.now script.now prefix.now
        (last_key region.now last) step result }
{
    let mut window = ScanWindow::new();
    let mut step = items::iterate_open(region, script, step)?;
    let mut at: usize = 0;
    // No iterator: each turn is an item call, which may fail and leaves the step for what follows.
    loop {
        let (met, next) = items::iterate_next(region, script, at, step)?;
        step = next;
        let Some(place) = met else {
            return Ok((window, step));
        };
        if let Err(fault) = windows::overlong(region, prefix, place) {
            return Err(Failure { fault, step });
        }
        window = windows::keep(region, prefix, last, window, place);
        at = place.end();
    }
}

// ---- the scan

// Passes until one keeps fewer than a window holds; the records of each are written before the next.
fn passes(
    region: &[u8],
    script: &[u8],
    prefix: &[u8],
    most: usize,
    out: &mut [u8],
    step: Step,
) -> Listing
    requires region_value { good region.now ≡ true }
    requires most_nonzero { 0 < most }
    ensures { Scans rising region.now script.now prefix.now most step
        out.old out.new result }
{
    let mut step = step;
    let mut end = Ok(ScanEnd::Finished);
    let mut count: usize = 0;
    let mut length: usize = 0;
    let mut last = None;
    'passes: loop {
        let (window, after) = match pass(region, script, prefix, last, step) {
            Ok(passed) => passed,
            // The records of earlier passes stand.
            Err(failed) => {
                end = Err(failed.fault);
                step = failed.step;
                break 'passes;
            }
        };
        step = after;
        if !window.advances(region, last) {
            end = Err(Fault::ScanStalled);
            break 'passes;
        }
        for place in &window.places[..window.len] {
            let size = region::size(place.klen, place.vlen);
            if out.len() - length < size {
                end = Ok(ScanEnd::NoRoom);
                break 'passes;
            }
            windows::put_place(region, *place, out, length);
            length += size;
            count += 1;
            if count == most {
                end = Ok(ScanEnd::Stopped);
                break 'passes;
            }
        }
        if window.len < SCAN_WINDOW {
            break 'passes;
        }
        last = window.last_of(region, last);
    }
    Listing {
        end,
        count,
        length,
        step,
    }
}

// The records under a prefix in key order, at most so many, as far as the output takes them.
pub fn scan_from(
    region: &[u8],
    script: &[u8],
    prefix: &[u8],
    most: usize,
    out: &mut [u8],
    step: Step,
) -> Listing
    requires { good region.now ≡ true }
    ensures { Scans rising region.now script.now prefix.now most step
        out.old out.new result }
{
    if most == 0 {
        return Listing {
            end: Ok(ScanEnd::Stopped),
            count: 0,
            length: 0,
            step,
        };
    }
    passes(region, script, prefix, most, out, step)
}
