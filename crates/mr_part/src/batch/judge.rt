ghost use Rattle.std.specs.Prelude.{◌≡◌, ◌<◌};
ghost use Rattle.std.specs.Option.{option_copied};
ghost use Rattle.mr_part.specs.Answering.{NeverStore};
ghost use Rattle.mr_part.specs.Candidate.{known_verdict, there_verdict, write_verdict_with, commit_verdict_with};
ghost use Rattle.mr_tables.specs.Summary.{tally_at};

use mr_base::{CommitNumber, Refusal, Write, WriteId};
use mr_tables::summary::Summary;

/// Whether a write in this line is new, and not one that is known or dropped. `there` is the kept write of its id.
pub(crate) fn judge_write(
    summary: &Summary,
    line: u64,
    write: &Write,
    there: Option<&Write>,
) -> Result<bool, Refusal>
    ensures verdict { result ≡ write_verdict_with line (tally_at summary.now.tallies write.now.stamp.server) summary.now.server (option_copied there.entry) write.now }
    ensures own { NeverStore result }
{
    let stamp = write.stamp;
    let tally = summary.tally(stamp.server);
    if stamp.n <= tally.count {
        return judge_known(line, write, there);
    }
    if stamp.server == summary.server {
        return Err(Refusal::OwnWrite(line));
    }
    if stamp.n - 1 > tally.count {
        return Err(Refusal::Gap(line));
    }
    if stamp.time <= tally.last_time {
        return Err(Refusal::OutOfOrder(line));
    }
    Ok(true)
}

/// Whether a known write is to be skipped: it is if it is kept just so, or dropped.
fn judge_known(line: u64, write: &Write, kept: Option<&Write>) -> Result<bool, Refusal>
    ensures verdict { result ≡ known_verdict line write.now (option_copied kept.entry) }
    ensures own { NeverStore result }
{
    match kept {
        None => Ok(false),
        Some(kept) => {
            if kept.is_same(write) {
                Ok(false)
            } else {
                Err(Refusal::Forged(line))
            }
        }
    }
}

/// Whether a commit in this line is new, and not one that is known or dropped. `is_there` says whether the kept write of its id
/// has its number.
pub(crate) fn judge_commit(
    summary: &Summary,
    line: u64,
    seq: CommitNumber,
    id: WriteId,
    is_there: bool,
) -> Result<bool, Refusal>
    ensures verdict { result ≡ commit_verdict_with line (tally_at summary.now.tallies id.server) summary.now is_there seq id }
    ensures own { NeverStore result }
    ensures in_range { id.server < 100 }
{
    let q = seq.number();
    let tally = summary.tally(id.server);
    if q <= summary.dropped {
        return Ok(false);
    }
    if q <= summary.commits {
        return judge_there(line, is_there);
    }
    if summary.server == summary.primary {
        return Err(Refusal::PrimaryOnly(line));
    }
    if q - 1 > summary.commits {
        return Err(Refusal::Gap(line));
    }
    if id.n > tally.count {
        return Err(Refusal::Gap(line));
    }
    if id.n - 1 != tally.committed {
        return Err(Refusal::OutOfOrder(line));
    }
    Ok(true)
}

/// Whether a known commit is to be skipped: it is if it is of this id.
fn judge_there(line: u64, is_there: bool) -> Result<bool, Refusal>
    ensures verdict { result ≡ there_verdict line is_there }
    ensures own { NeverStore result }
{
    if is_there {
        Ok(false)
    } else {
        Err(Refusal::Forged(line))
    }
}
