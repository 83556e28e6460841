// The counts of an accepted batch: how many stops, lines, trips and trip stops it has.
#![tactic(auto)]

ghost use Rattle.keys.specs.KeyFiles.{KeyFile};
ghost use Rattle.counts.specs.Counted.{Counted};

use tally::count;

// How many records the files 2, 5, 6 and 8 have.
#[derive(Clone, Copy)]
pub struct Counts {
    pub stops: u64,
    pub lines: u64,
    pub trips: u64,
    pub trip_stops: u64,
}

// inner: how many records these files have: Zastavky, Linky, Spoje, Zasspoje
pub fn counts_of(f2: &[u8], f5: &[u8], f6: &[u8], f8: &[u8]) -> Counts
    requires { KeyFile 2 f2.now × KeyFile 5 f5.now × KeyFile 6 f6.now × KeyFile 8 f8.now }
    ensures { Counted f2.now f5.now f6.now f8.now result }
{
    let stops = count(2, f2);
    let lines = count(5, f5);
    let trips = count(6, f6);
    let trip_stops = count(8, f8);
    Counts {
        stops: stops as u64,
        lines: lines as u64,
        trips: trips as u64,
        trip_stops: trip_stops as u64,
    }
}
