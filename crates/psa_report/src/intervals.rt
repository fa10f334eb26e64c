ghost use Rattle.psa_model.specs.Report.{ends_text};
ghost use Rattle.psa_report.specs.Pieces.{Writes};

use crate::WriteFault;
use crate::pieces::put_all;
use psa_number::{Interval, print_units};
use psa_ports::Sink;

/// Writes the ends of an interval in decimals, with a space between them.
pub fn put_interval<S: Sink>(out: &mut S, interval: Interval) -> Result<(), WriteFault>
    ensures { Writes (S.written out.old) (S.written out.new) (S.faults out.old) (S.faults out.new)
        (ends_text interval) result }
{
    put_all(
        out,
        &[
            print_units(interval.lo).as_str(),
            " ",
            print_units(interval.hi).as_str(),
        ],
    )
}
