// The hint of a batch: where the records of each keyed file start, in order of their keys, for the files whose keys don't rise by themselves.
#![tactic(auto)]

ghost use Rattle.thirteen.specs.Lent.{batch_of};
ghost use Rattle.arrange.specs.Hint.{HintIs};

use alone::check_files;
use fault::{Fault, is_none};
use file::Refusal;
use parts::{put_all, whole_size};
use thirteen::Files;

// The answer.
#[derive(Clone, Copy)]
pub enum Arranged {
    // What is wrong with a file by itself, or 22 (a file's `NoRoom`) where the hint doesn't fit into the list.
    Refused(Fault),
    // How many places were written.
    Wrote(u64),
}

// Makes the hint in the lent list.
pub fn arrange(files: &Files, list: &mut [u32]) -> Arranged
    ensures { HintIs (batch_of files.now) list.old result list.new }
{
    let fault = check_files(files);
    if !is_none(fault) {
        return Arranged::Refused(fault);
    }
    let size = whole_size(files);
    if size > list.len() {
        return Arranged::Refused(Fault::File(Refusal::NoRoom));
    }
    put_all(files, list);
    Arranged::Wrote(size as u64)
}
