ghost use Rattle.std.specs.Prelude.{◌≤◌};
ghost use Rattle.dl_io.specs.Causes.{Rose};
ghost use Rattle.dlupdate.specs.Accepting.{IsDone};
ghost use Rattle.dlupdate.specs.Offline.{IsRun};
ghost use Rattle.dlupdate.specs.Commands.{words_of};

use crate::commands::run;
use dl_io::{Files, Sink, write_all};
use std::alloc::Global;

/// All that `dlupdate` does: the run of the words over the files, printed to the sink, and its exit status.
///
/// 0 where the command was done, and always where words and files are accepted, memory suffices and the outside doesn't fail; 2 exactly where the words are none of the commands, 3 exactly where a file is missing, too long or refused
/// by its reader, 4 exactly where the opening facts are inconsistent, 5 exactly where an update is ill-formed, 6 only where the files'
/// count of faults rose, 7 only where the sink's did, and then a front of the text was written; 8 is want of memory.
pub fn run_offline<F: Files, K: Sink>(
    alloc: Global,
    words: &[String],
    files: &mut F,
    out: &mut K,
) -> u8
    ensures run { IsRun (F.contents files.old) (Rose (F.faults files.old) (F.faults files.new)) (Rose (K.faults out.old) (K.faults out.new)) (words_of words.now) (K.written out.old) (K.written out.new) result }
    ensures done { IsDone (F.contents files.old) (Rose (F.faults files.old) (F.faults files.new)) (Rose (K.faults out.old) (K.faults out.new)) (words_of words.now) result }
    ensures files_later { F.faults files.old ≤ F.faults files.new }
    ensures out_later { K.faults out.old ≤ K.faults out.new }
{
    match run(alloc, words, files) {
        Ok(report) => match write_all(out, report.text.as_slice()) {
            Ok(()) => report.status,
            Err(_) => 7,
        },
        Err(_) => {
            let _ = write_all(out, b"error memory\n");
            8
        }
    }
}
