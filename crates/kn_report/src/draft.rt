//! Reports of which the last line was not read yet.

ghost use Rattle.std.specs.Prelude.{◌≡◌, ◌+◌, ◌≤◌, IfOk, length};
ghost use Rattle.kn_report.specs.Forms.{IsReport};
ghost use Rattle.kn_report.specs.Sections.{OnSections};
ghost use Rattle.kn_report.specs.Texts.{line_count};

use crate::forms::failed_states;
use crate::report::{Columns, FailureLine, Head, Report, StateLine};
use crate::section::{next_head, read_dstates, read_failures, read_states};
use std::alloc::{AllocError, Global};
use std::marker::Model;

/// What was read of a report.
#[derive(Drop)]
pub(crate) struct Draft {
    pub(crate) head: Head,
    pub(crate) states: Vec<StateLine>,
    pub(crate) dstates: Vec<Columns>,
    pub(crate) failures: Vec<FailureLine>,
}

impl Model for Draft {
    ghost use Rattle.kn_model.specs.Reports.{Report as Parts};

    ghost Value = { Parts };

    ghost view = { λ d. record { mapping = d.head.mapping; ticks = d.head.ticks; nodes = d.head.nodes; states = d.states.items; dstates = d.dstates.items; failures = d.failures.items } };
}

impl Draft {
    /// How many lines it has, where this is left of the text.
    pub(crate) fn line_count(&self, rest: &[u8], text: &[u8]) -> usize
        requires { line_count self.now + length rest.now ≤ length text.now }
        ensures { result ≡ line_count self.now }
    {
        1 + self.states.len() + self.dstates.len() + self.failures.len()
    }

    /// How many failure lines it has.
    pub(crate) fn failure_count(&self) -> usize
        ensures { result ≡ length self.now.failures }
    {
        self.failures.len()
    }
}

/// The report, where each failed state has its line.
pub(crate) fn report_of(draft: Draft) -> Report
    requires { IsReport draft }
    ensures { result ≡ draft }
{
    Report {
        mapping: draft.head.mapping,
        ticks: draft.head.ticks,
        nodes: draft.head.nodes,
        states: draft.states,
        dstates: draft.dstates,
        failures: draft.failures,
    }
}

/// The sections of a text, how many states failed, and what follows the sections. None where the text has no head.
pub(crate) fn sections_of(
    alloc: Global,
    text: &[u8],
) -> Result<Option<(Draft, usize, &[u8])>, AllocError>
    ensures { IfOk result (λ o. OnSections text.now o) }
{
    let Some((head, rest)) = next_head(alloc, text)? else {
        return Ok(None);
    };
    let (states, rest) = read_states(alloc, rest)?;
    let failed = failed_states(alloc, &states)?;
    let (dstates, rest) = read_dstates(alloc, states.len(), head.nodes(), rest)?;
    let (failures, rest) = read_failures(alloc, &failed, &dstates, rest)?;
    let draft = Draft {
        head,
        states,
        dstates,
        failures,
    };
    Ok(Some((draft, failed.len(), rest)))
}
