ghost use Rattle.std.specs.Prelude.{◌≡◌, ◌≤◌, unsigned_abs};
ghost use Rattle.psa_number.specs.declared.limits.TheConstants.{MAX_END};
ghost use Rattle.psa_model.specs.Quantities.{cut_off_units, has_quantities as asks_for_quantities};
ghost use Rattle.psa_model.specs.Report.{algorithm_word, head_text, products_word, quantity_head};
ghost use Rattle.psa_report.specs.Head.{first_lines, quantity_lines};
ghost use Rattle.psa_report.specs.Pieces.{Writes};

use crate::WriteFault;
use crate::intervals::put_interval;
use crate::pieces::{put_all, put_one};
use itoa::Buffer;
use psa_model::{Algorithm, Mode, Settings};
use psa_number::{interval_of, print_units};
use psa_ports::Sink;

fn algorithm_name(algorithm: Algorithm) -> &'static str
    ensures { result.now ≡ algorithm_word algorithm }
{
    match algorithm {
        Algorithm::Bdd => "bdd",
        Algorithm::Zbdd => "zbdd",
    }
}

fn products_name(mode: Mode) -> &'static str
    ensures { result.now ≡ products_word mode }
{
    match mode {
        Mode::CutSets => "minimal-cut-sets",
        Mode::Primes => "prime-implicants",
    }
}

/// Whether quantities are computed.
fn has_quantities(settings: &Settings) -> bool
    ensures { result ≡ asks_for_quantities settings.now }
{
    settings.cut_off.is_some() || settings.rare_event || settings.mcub
}

/// The cutoff's ceiling in units, 0 where there is none.
fn cut_off(settings: &Settings) -> i128
    ensures exact { result ≡ cut_off_units settings.now.cut_off }
    ensures fits { unsigned_abs result ≤ MAX_END }
{
    match settings.cut_off {
        Some(decimal) => interval_of(decimal).hi,
        None => 0,
    }
}

/// Writes the first lines of a report: its name, the algorithm, which products are listed, the order limit, and
/// where quantities are computed the mission time and the cutoff.
/// Refuses only where the sink does; a prefix of the lines was written then.
pub fn write_head<S: Sink>(out: &mut S, settings: &Settings) -> Result<(), WriteFault>
    ensures { Writes (S.written out.old) (S.written out.new) (S.faults out.old) (S.faults out.new)
        (head_text settings.now) result }
{
    write_first_lines(out, settings)?;
    write_quantities(out, settings)
}

/// Writes the lines that always stand.
fn write_first_lines<S: Sink>(out: &mut S, settings: &Settings) -> Result<(), WriteFault>
    ensures { Writes (S.written out.old) (S.written out.new) (S.faults out.old) (S.faults out.new)
        (first_lines settings.now) result }
{
    let mut order = Buffer::new();
    put_all(
        out,
        &[
            "scram report\nalgorithm ",
            algorithm_name(settings.algorithm),
            "\nproducts ",
            products_name(settings.mode),
            "\nlimit-order ",
            order.format(settings.limit_order),
            "\n",
        ],
    )
}

/// Writes the mission time and the cutoff where quantities are computed.
fn write_quantities<S: Sink>(out: &mut S, settings: &Settings) -> Result<(), WriteFault>
    ensures { Writes (S.written out.old) (S.written out.new) (S.faults out.old) (S.faults out.new)
        (quantity_lines settings.now) result }
{
    if !has_quantities(settings) {
        return put_all(out, &[]);
    }
    write_asked_quantities(out, settings)
}

/// Writes the mission time and the cutoff.
fn write_asked_quantities<S: Sink>(out: &mut S, settings: &Settings) -> Result<(), WriteFault>
    ensures { Writes (S.written out.old) (S.written out.new) (S.faults out.old) (S.faults out.new)
        (quantity_head settings.now) result }
{
    put_one(out, "mission-time ")?;
    put_interval(out, interval_of(settings.mission))?;
    put_all(
        out,
        &["\ncut-off ", print_units(cut_off(settings)).as_str(), "\n"],
    )
}
