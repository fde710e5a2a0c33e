//! Scans with workers that are out of memory before the source is asked.

use crate::host::Host;
use crate::scans::runs::{Way, scan_from};
use crate::scans::worked::NO_ROWS;
use line_model::device::CHUNK;
use line_model::fault::Fault;
use std::alloc::Global;
use tests_devices::scarce::Scarce;
use tests_devices::{Cuts, Pace, PacedSource};
use trace_scan::gate::OpenGate;

/// Notes how many growths were asked for before the first read, if there is one.
#[derive(Drop)]
struct Noting<'a> {
    heap: &'a Scarce<Global>,
    growths: Option<u64>,
}

impl Pace for Noting<'_> {
    fn next_read(&mut self, _rest: &[u8]) -> Option<usize> {
        if self.growths.is_none() {
            self.growths = Some(self.heap.asked());
        }
        Some(CHUNK)
    }
}

/// How many growths a scan asks for before its source, where one is refused after `good`. Where it does not ask its
/// source, nothing is written.
fn growths_before(rt: &impl Host, heap: &Scarce<Global>, way: Way, good: u64) -> Option<u64> {
    let noting = Noting {
        heap,
        growths: None,
    };
    let mut source = PacedSource::at(NO_ROWS, noting);
    heap.refuse_one(good);
    let scanned = scan_from(rt, heap, &OpenGate, way, &mut source, Cuts::of_steps(7, 7));
    if source.pace.growths.is_none() {
        let fault = scanned.summary().err();
        assert!(rt;
            matches!(fault, Some(Fault::Memory | Fault::Start)),
            "growth {good}"
        );
        assert!(rt; scanned.taken.is_empty(), "growth {good}");
    }
    source.pace.growths
}

const CREWS: [Way; 4] = [
    Way::Crew(1, 64),
    Way::Crew(2, 64),
    Way::Crew(64, 64),
    Way::InBlocks(2, 64, 1),
];

#[test]
fn a_source_is_not_asked_where_a_crew_wanted_memory(rt: HostRuntime) {
    for way in CREWS {
        let heap = Scarce::new(rt.alloc());
        let growths = growths_before(&rt, &heap, way, u64::MAX).unwrap_or(0);
        assert!(rt; 0 < growths);
        for good in 0..growths {
            assert!(rt;
                growths_before(&rt, &heap, way, good).is_none(),
                "growth {good}"
            );
            assert!(rt; heap.held() == 0, "growth {good}");
        }
    }
}
