// Many sale questions, answered one after the other on a batch that stands.
#![tactic(auto)]

ghost use Rattle.std.specs.Prelude.{◌≡◌, [], ◌∷◌, ◌+◌, ◌*◌, ◌≤◌, length};
ghost use Rattle.laws.specs.Splice.{splice};
ghost use Rattle.file.specs.Files.{fields_of};
ghost use Rattle.file.specs.Records.{records_in};
ghost use Rattle.field.specs.Names.{lines_file, trip_stops_file, time_codes_file};
ghost use Rattle.link.specs.Signs.{codes_file};
ghost use Rattle.coded.specs.Ready.{Ready};
ghost use Rattle.trip.specs.Stage.{trips_file};
ghost use Rattle.ticket.specs.Plain.{LinesMet};
ghost use Rattle.asking.specs.Rows.{rows, row_at, questions};
ghost use Rattle.answering.specs.Plainly.{plainly};

use asking::{Row, put_row};
use lookup::Paths;
use question::{question_at, row_of};
use ticket::sale_on;

// The answer to the question whose seven numbers start at place i.
fn ask_at(
    asked: &[u64],
    i: usize,
    f3: &[u8],
    f5: &[u8],
    f6: &[u8],
    f7: &[u8],
    f8: &[u8],
    f10: &[u8],
    paths: Paths,
    holidays: &[u64],
) -> Row
    requires { (i + 7 ≤ length asked.now) × LinesMet (records_in (fields_of lines_file) f5.now) (records_in (fields_of trips_file) f6.now) × Ready codes_file f3.now paths.order.now paths.ways.now × Ready lines_file f5.now paths.order.now paths.ways.now × Ready trips_file f6.now paths.order.now paths.ways.now × Ready 7 f7.now paths.order.now paths.ways.now × Ready trip_stops_file f8.now paths.order.now paths.ways.now × Ready time_codes_file f10.now paths.order.now paths.ways.now }
    ensures { row_at (plainly (records_in (fields_of codes_file) f3.now) (records_in (fields_of lines_file) f5.now) (records_in (fields_of trips_file) f6.now) (records_in (fields_of 7) f7.now) (records_in (fields_of trip_stops_file) f8.now) (records_in (fields_of time_codes_file) f10.now) holidays.now) asked.now i ≡ result.number ∷ result.departure ∷ result.arrival ∷ [] }
{
    let q = question_at(asked, i);
    row_of(sale_on(
        q.line, q.trip, q.day, q.month, q.year, q.from, q.to, f3, f5, f6, f7, f8, f10, paths,
        holidays,
    ))
}

// inner: the answers to all questions, on a batch that stands and whose ways were made out, from the start of the list on
pub fn answer_all(
    asked: &[u64],
    list: &mut [u64],
    f3: &[u8],
    f5: &[u8],
    f6: &[u8],
    f7: &[u8],
    f8: &[u8],
    f10: &[u8],
    paths: Paths,
    holidays: &[u64],
)
    requires { (3 * questions asked.now ≤ length list.old) × LinesMet (records_in (fields_of lines_file) f5.now) (records_in (fields_of trips_file) f6.now) × Ready codes_file f3.now paths.order.now paths.ways.now × Ready lines_file f5.now paths.order.now paths.ways.now × Ready trips_file f6.now paths.order.now paths.ways.now × Ready 7 f7.now paths.order.now paths.ways.now × Ready trip_stops_file f8.now paths.order.now paths.ways.now × Ready time_codes_file f10.now paths.order.now paths.ways.now }
    ensures { list.new ≡ splice list.old 0 (rows (plainly (records_in (fields_of codes_file) f3.now) (records_in (fields_of lines_file) f5.now) (records_in (fields_of trips_file) f6.now) (records_in (fields_of 7) f7.now) (records_in (fields_of trip_stops_file) f8.now) (records_in (fields_of time_codes_file) f10.now) holidays.now) asked.now) }
{
    let mut at = 0;
    for k in 0..asked.len() / 7 {
        let row = ask_at(asked, 7 * k, f3, f5, f6, f7, f8, f10, paths, holidays);
        at = put_row(list, at, row);
    }
}
