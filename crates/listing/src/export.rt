// The listing with a number for an answer, as a host in C gets it from the static library above.
ghost use Rattle.dispatch.specs.Picks.{by_priority};
ghost use Rattle.listing.specs.Exporting.{Exports};

use crate::list::listing;

// The listing of a plan and of evidence. It answers the length of the text, or -9 for a place of under 512 bytes.
// One number carries both, since C gets numbers back.
pub fn roof_listing(plan: &[u8], evidence: &[u8], place: &mut [u8]) -> i32
    ensures { Exports by_priority 256 plan.now evidence.now result place.old place.new }
{
    match listing(plan, evidence, place) {
        Ok(length) => length as i32,
        Err(fault) => -(fault.refusal.number() as i32),
    }
}
