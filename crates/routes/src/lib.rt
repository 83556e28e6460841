// The ways to the records of a batch's keyed files, made out once: by rising keys, by a part of the lent list, or record by record.
#![tactic(auto)]

ghost use Rattle.std.specs.Prelude.{◌≤◌, length};
ghost use Rattle.keys.specs.KeyFiles.{KeyFile};
ghost use Rattle.thirteen.specs.Lent.{batch_of};
ghost use Rattle.lookup.specs.Ways.{Way, Ways, KeyFiles};

use hinted::look_at;
use ordered::rising;
use tally::count;
use thirteen::{Files, file_of};

// The way to a file's records, and where the next file's part of the list begins.
#[derive(Clone, Copy)]
struct Route {
    how: usize,
    from: usize,
    to: usize,
    next: usize,
}

// The way to the records of one file, if its part of the list begins at `from`.
fn way_to(file: u64, s: &[u8], order: &[u32], from: usize) -> Route
    requires { KeyFile file s.now × (from ≤ length order.now) }
    ensures { Way file s.now order.now result.how result.from result.to × (result.next ≤ length order.now) }
{
    if rising(file, s) {
        return Route {
            how: 1,
            from: 0,
            to: 0,
            next: from,
        };
    }
    let n = count(file, s);
    if n > order.len() - from {
        return Route {
            how: 0,
            from: 0,
            to: 0,
            next: order.len(),
        };
    }
    let to = from + n;
    let kind = look_at(file, s, &order[from..to]);
    if kind == 0 {
        return Route {
            how: 0,
            from: 0,
            to: 0,
            next: to,
        };
    }
    if kind == 1 {
        return Route {
            how: 3,
            from,
            to,
            next: to,
        };
    }
    Route {
        how: 2,
        from,
        to,
        next: to,
    }
}

// inner: the ways to all keyed files
pub fn survey(files: &Files, order: &[u32], ways: &mut [usize])
    requires { (33 ≤ length ways.old) × KeyFiles (batch_of files.now) }
    ensures { Ways (batch_of files.now) order.now ways.new }
{
    let mut from = 0;
    for file in 2..11 {
        let s = file_of(file, files);
        let w = way_to(file, s, order, from);
        let i = (file as usize) * 3;
        ways[i] = w.how;
        ways[i + 1] = w.from;
        ways[i + 2] = w.to;
        from = w.next;
    }
}
