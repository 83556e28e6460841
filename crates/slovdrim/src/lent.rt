// The thirteen files of a batch as C lends them, one by one.
ghost use Rattle.std.specs.Prelude.{◌≡◌};
ghost use Rattle.thirteen.specs.Batch.{thirteen};
ghost use Rattle.thirteen.specs.Lent.{batch_of};

use thirteen::Files;

// inner: the files in their order
pub fn files_of<'a>(
    f1: &'a [u8],
    f2: &'a [u8],
    f3: &'a [u8],
    f4: &'a [u8],
    f5: &'a [u8],
    f6: &'a [u8],
    f7: &'a [u8],
    f8: &'a [u8],
    f9: &'a [u8],
    f10: &'a [u8],
    f11: &'a [u8],
    f12: &'a [u8],
    f13: &'a [u8],
) -> Files<'a>
    ensures { batch_of result ≡ thirteen f1.now f2.now f3.now f4.now f5.now f6.now f7.now f8.now f9.now f10.now f11.now f12.now f13.now }
{
    Files {
        version: f1,
        stops: f2,
        codes: f3,
        carriers: f4,
        lines: f5,
        trips: f6,
        line_stops: f7,
        trip_stops: f8,
        notes: f9,
        time_codes: f10,
        other_carriers: f11,
        other_lines: f12,
        seats: f13,
    }
}
