// What became of a payoff.
ghost use Rattle.std.specs.Prelude.{◌≡◌};
ghost use Rattle.mirabellejib.specs.Reports.{report_of_refused, report_of_shortened, report_of_checked};

use base::Fault;
use lending::{Checked, Shortened};

#[repr(C)]
#[derive(Clone, Copy, Debug, PartialEq, Eq)]
pub struct Report {
    // 0, or the number of the fault, the layer that refused, and the node that the fault names.
    pub fault: u32,
    pub layer: u32,
    pub node: u32,
    // How many rewrites were made, in how many rounds, and 1 where places stayed unvisited for being too far down.
    pub rewrites: u32,
    pub rounds: u32,
    pub left: u32,
    // The number of the payoff's root, and how many records, list entries and bytes of text there are.
    pub root: u32,
    pub nodes: usize,
    pub entries: usize,
    pub text: usize,
}

// A report of nothing.
const NOTHING: Report = Report {
    fault: 0,
    layer: 0,
    node: 0,
    rewrites: 0,
    rounds: 0,
    left: 0,
    root: 0,
    nodes: 0,
    entries: 0,
    text: 0,
};

// A file that was refused.
pub(crate) fn report_refused(fault: Fault) -> Report
    ensures { result ≡ report_of_refused fault }
{
    Report {
        fault: fault.number(),
        layer: fault.layer(),
        node: fault.node(),
        ..NOTHING
    }
}

// A file that is lawful.
pub(crate) fn report_checked(checked: Checked) -> Report
    ensures { result ≡ report_of_checked checked }
{
    Report {
        root: checked.root,
        nodes: checked.counts.nodes,
        entries: checked.counts.entries,
        text: checked.counts.text,
        ..NOTHING
    }
}

// What is left of a payoff.
pub(crate) fn report_shortened(shortened: Shortened) -> Report
    ensures { result ≡ report_of_shortened shortened }
{
    let left = report_checked(Checked {
        root: shortened.root,
        counts: shortened.counts,
    });
    match shortened.swept {
        Ok(swept) => Report {
            rewrites: swept.rewrites,
            rounds: swept.rounds,
            left: u32::from(swept.left),
            ..left
        },
        Err(refused) => Report {
            fault: refused.fault.number(),
            layer: refused.fault.layer(),
            node: refused.fault.node(),
            rewrites: refused.rewrites,
            ..left
        },
    }
}
