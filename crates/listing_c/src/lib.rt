// The listing for a host in C: a static library with one export.
#![tactic(auto)]

ghost use Rattle.dispatch.specs.Picks.{by_priority};
ghost use Rattle.listing.specs.Exporting.{Exports};

// The listing of a plan and of evidence. It answers the length of the text, or -9 for a place of under 512 bytes.
// The work stands in `listing`: only a static library exports, and only a library can be tested beside the others.
#[unsafe(no_mangle)]
pub extern "C" fn roof_listing(plan: &[u8], evidence: &[u8], place: &mut [u8]) -> i32
    ensures { Exports by_priority 256 plan.now evidence.now result place.old place.new }
{
    listing::export::roof_listing(plan, evidence, place)
}
