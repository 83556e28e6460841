// The thirteen files of a batch: document 01, "The batch". They are lent together.
#![tactic(auto)]

ghost use Rattle.std.specs.Prelude.{◌≡◌};
ghost use Rattle.thirteen.specs.Batch.{file_in};
ghost use Rattle.thirteen.specs.Lent.{batch_of};

// The thirteen files, by what they hold; beside each its name in JDF.
#[derive(Clone, Copy)]
pub struct Files<'a> {
    pub version: &'a [u8], // VerzeJDF
    pub stops: &'a [u8], // Zastavky
    pub codes: &'a [u8], // Pevnykod
    pub carriers: &'a [u8], // Dopravci
    pub lines: &'a [u8], // Linky
    pub trips: &'a [u8], // Spoje
    pub line_stops: &'a [u8], // Zaslinky
    pub trip_stops: &'a [u8], // Zasspoje
    pub notes: &'a [u8], // Udaje
    pub time_codes: &'a [u8], // Caskody
    pub other_carriers: &'a [u8], // Altdop
    pub other_lines: &'a [u8], // Altlinky
    pub seats: &'a [u8], // Mistenky
}

// inner: a file by its number; an empty one where there is no such file
#[tactic(auto, unfolding(crate::specs::Batch::file_in))]
pub fn file_of<'a>(file: u64, files: &Files<'a>) -> &'a [u8]
    ensures { result.now ≡ file_in (batch_of files.now) file }
{
    match file {
        1 => files.version,
        2 => files.stops,
        3 => files.codes,
        4 => files.carriers,
        5 => files.lines,
        6 => files.trips,
        7 => files.line_stops,
        8 => files.trip_stops,
        9 => files.notes,
        10 => files.time_codes,
        11 => files.other_carriers,
        12 => files.other_lines,
        13 => files.seats,
        _ => &files.version[..0],
    }
}
