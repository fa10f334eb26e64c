ghost use Rattle.std.specs.Prelude.{◌≡◌, [], List, ℕ, codes, if◌then◌else◌};
ghost use Rattle.psa_number.specs.Operations.{complement_ends, IsInUnit};
ghost use Rattle.psa_model.specs.Report.{count_line, total_line, totals_text};
ghost use Rattle.psa_report.specs.Pieces.{Writes};

use crate::WriteFault;
use crate::intervals::put_interval;
use crate::pieces::{put_all, put_one};
use itoa::Buffer;
use psa_model::{MAX_COUNT, Settings};
use psa_number::{Interval, complement};
use psa_ports::Sink;
use psa_products::Totals;

/// Writes the count of the kept products of a target, and the total that the settings ask for: the rare-event sum,
/// or the min-cut upper bound.
/// Refuses only where the sink does; a prefix of the lines was written then.
pub fn write_totals<S: Sink>(
    out: &mut S,
    settings: &Settings,
    totals: &Totals,
) -> Result<(), WriteFault>
    ensures { Writes (S.written out.old) (S.written out.new) (S.faults out.old) (S.faults out.new)
        (totals_text settings.now totals.now.count totals.now.rare_event
        (complement_ends totals.now.rest)) result }
{
    let mut count = Buffer::new();
    put_all(
        out,
        &["count ", count.format(totals.count.min(MAX_COUNT)), "\n"],
    )?;
    write_total(out, settings.rare_event, "rare-event", totals.rare_event)?;
    write_total(out, settings.mcub, "mcub", complement(totals.rest))
}

/// Writes the line of a total where it is asked for.
fn write_total<S: Sink>(
    out: &mut S,
    is_asked: bool,
    word: &str,
    total: Interval,
) -> Result<(), WriteFault>
    ensures { Writes (S.written out.old) (S.written out.new) (S.faults out.old) (S.faults out.new)
        (if is_asked then total_line word.now total else []) result }
{
    if !is_asked {
        return put_all(out, &[]);
    }
    write_asked(out, word, total)
}

/// Writes the line of a total.
fn write_asked<S: Sink>(out: &mut S, word: &str, total: Interval) -> Result<(), WriteFault>
    ensures { Writes (S.written out.old) (S.written out.new) (S.faults out.old) (S.faults out.new)
        (total_line word.now total) result }
{
    put_all(out, &[word, " "])?;
    put_interval(out, total)?;
    put_one(out, "\n")
}
