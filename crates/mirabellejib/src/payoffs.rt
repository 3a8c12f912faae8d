// Payoffs.
ghost use Rattle.std.specs.Prelude.{◌≡◌, take};
ghost use Rattle.host.specs.Structural.{structural_answers};
ghost use Rattle.host.specs.Table.{table_answers};
ghost use Rattle.lending.specs.Lending.{Checks, Shortens, lent};
ghost use Rattle.mirabellejib.specs.Options.{bound_by, support_by};
ghost use Rattle.mirabellejib.specs.Reports.{Reports, report_of, report_of_checked, report_of_shortened};

use crate::options::{bound_by, support_by};
use crate::report::{Report, report_checked, report_refused, report_shortened};
use base::Fault;
use lending::{Known, Shortened};

// Asks everything of a payoff's file that is asked before it is loaded.
#[unsafe(no_mangle)]
pub extern "C" fn mirabellejib_check(file: &[u8]) -> Report
    ensures { Reports report_of_checked (Checks file.now) result }
{
    match lending::check(file) {
        Ok(checked) => report_checked(checked),
        Err(fault) => report_refused(fault),
    }
}

// Shortens the payoff of a file, by what its nodes say of themselves. What is left stands in the memory: the records of its
// nodes, 20 bytes each, its list entries and its text. A file that is refused leaves the memory as it was.
#[unsafe(no_mangle)]
pub extern "C" fn mirabellejib_shorten(
    file: &[u8],
    options: u32,
    records: &mut [u8],
    entries: &mut [u32],
    text: &mut [u8],
) -> Report
    ensures { Reports report_of_shortened (λ r. Shortens file.now (λ n. structural_answers (bound_by options)) (support_by options)
        (lent records.old entries.old text.old) r (lent records.new entries.new text.new)) result }
{
    let bound = bound_by(options);
    report(lending::shorten(
        file,
        Known::Bound(&bound),
        support_by(options),
        records,
        entries,
        text,
    ))
}

// The same, by a table with a byte for each node of the file.
#[unsafe(no_mangle)]
pub extern "C" fn mirabellejib_shorten_by_table(
    file: &[u8],
    rows: &[u8],
    options: u32,
    records: &mut [u8],
    entries: &mut [u32],
    text: &mut [u8],
) -> Report
    ensures { Reports report_of_shortened (λ r. Shortens file.now (λ n. table_answers (take n rows.now)) (support_by options)
        (lent records.old entries.old text.old) r (lent records.new entries.new text.new)) result }
{
    report(lending::shorten(
        file,
        Known::Rows(rows),
        support_by(options),
        records,
        entries,
        text,
    ))
}

fn report(shortened: Result<Shortened, Fault>) -> Report
    ensures { result ≡ report_of report_of_shortened shortened }
{
    match shortened {
        Ok(shortened) => report_shortened(shortened),
        Err(fault) => report_refused(fault),
    }
}
