// The public scan: document 01, "Calls", scan. It requires nothing, and is equal to its definition in
// `definition/specs/Public`: answer, state, item calls and every lent byte.
#![tactic(auto)]

ghost use Rattle.std.specs.Prelude.{◌≡◌};
ghost use Rattle.definition.specs.Public;
ghost use Rattle.definition.specs.Public.{outcome};
ghost use Rattle.listing.specs.Forms.{listed, unlisted};

use definition::{Fault, Health, Reply, Scanned, State};
use scan::Listing;

// A refusal before any record was written.
fn unlisted(fault: Fault) -> Scanned
    ensures { result ≡ unlisted fault }
{
    Scanned {
        end: Err(fault),
        count: 0,
        length: 0,
    }
}

// A listing as the call's reply.
fn reply_of(listing: Listing, health: Health) -> Reply<Scanned>
    ensures { result ≡ listed listing health }
{
    let scanned = Scanned {
        end: listing.end,
        count: listing.count,
        length: listing.length,
    };
    gate::reply(scanned, health, listing.step)
}

// Lists the records under a prefix in rising key order, at most `most` of them, as records at the front of `out`, and
// says whether these were all (Finished), as many as asked for (Stopped), or all that had room (NoRoom). Refusals, in
// order: 7 for a bad image, with nothing changed and no item call; a recovery's fault, if the store was Pending; a
// pass's fault, or 2 for a value over 256 bytes: the records of earlier passes then stand and are counted. Bytes
// beyond the records stay as they were. On the console: `scan -` says `scan finished 1 3 clean`, and an `item` line
// for each record.
pub fn scan_prefix(
    region: &mut [u8],
    script: &[u8],
    state: State,
    prefix: &[u8],
    most: usize,
    out: &mut [u8],
) -> Reply<Scanned>
    ensures { outcome result.answer result.state result.calls region.new out.new
        ≡ Public.scan_prefix region.old script.now state prefix.now most
        out.old }
{
    if !region::is_good(region) {
        return gate::unchanged(unlisted(Fault::Corrupted), state);
    }
    match gate::ready(region, script, state) {
        Ok((ready, step)) => {
            let listing = scan::scan_from(region, script, prefix, most, out, step);
            reply_of(listing, ready)
        }
        Err(failed) => gate::reply(unlisted(failed.fault), state.health, failed.step),
    }
}
