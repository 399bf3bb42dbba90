//! `filter`: of each batch the message of what is kept of it.
ghost use Rattle.std.specs.Prelude.{◌≡◌, [], IfOk};
ghost use Rattle.otap_kept.specs.Texts.{text_under};
ghost use Rattle.otap_filter.specs.Filters.{StandsFor, answer_of};
ghost use Rattle.otap_gateway.specs.declared.jobs.command.Command.TheVariants as command;
ghost use Rattle.otap_gateway.specs.Filtering.{answer_text, unordered_line};
ghost use Rattle.otap_gateway.specs.FilteringSteps.{HasFilteredSo, HasShortMessage, text_in};
ghost use Rattle.otap_gateway.specs.Lines.{refuses};
ghost use Rattle.otap_gateway.specs.Owners.{signal_of, whose_of};

use crate::jobs::job::Job;
use crate::jobs::owner::Owner;
use crate::jobs::receiving::refused;
use crate::jobs::reply::Reply;
use crate::texts::lines::push_head;
use otap_capture::Frame;
use otap_filter::{Filter, Filtered};
use std::alloc::{AllocError, Global};

/// The job `filter` of an owner and a pair.
#[derive(Drop)]
pub(crate) struct FilterJob {
    owner: Owner,
    filter: Filter,
}

impl FilterJob {
    pub(crate) fn new(
        alloc: Global,
        owner: Owner,
        key: &str,
        text: &str,
    ) -> Result<FilterJob, AllocError>
        ensures named { IfOk result (λ job. command.Filter job.owner job.filter.pair.key (text_in job.filter.pair.value) ≡ command.Filter owner key.now text.now) }
        ensures filter { IfOk result (λ job. StandsFor (signal_of job.owner) (whose_of job.owner) (text_under key.now text.now) [] job.filter) }
    {
        let filter = Filter::new(alloc, owner.signal(), owner.whose(), key, text)?;
        Ok(FilterJob { owner, filter })
    }
}

impl Job for FilterJob {
    ghost command = { λ s. command.Filter s.owner s.filter.pair.key (text_in s.filter.pair.value) };

    ghost stands = { λ s. HasFilteredSo s.owner s.filter };

    fn step(&mut self, alloc: Global, number: u64, frame: &Frame<'_>) -> Result<Reply, AllocError> {
        let filtered = self.filter.take(frame)?;
        reply_of(alloc, number, filtered)
    }
}

/// The reply to what a frame gave.
fn reply_of(alloc: Global, number: u64, filtered: Filtered) -> Result<Reply, AllocError>
    requires { HasShortMessage (answer_of filtered) }
    ensures { IfOk result (λ reply. reply ≡ answer_text number (answer_of filtered)) }
{
    match filtered {
        Filtered::Batch { bytes, .. } => Reply::frame(alloc, &bytes),
        Filtered::Unordered { id } => unordered(alloc, number, id),
        Filtered::Refused(refusal) => refused(alloc, number, refusal),
        Filtered::Reset => Reply::reset(alloc),
    }
}

/// The reply to a batch of which what is kept isn't ordered.
fn unordered(alloc: Global, number: u64, id: i64) -> Result<Reply, AllocError>
    ensures { IfOk result (λ reply. reply ≡ refuses (unordered_line number id)) }
{
    let mut line = Vec::new(alloc);
    push_head(&mut line, number, id)?;
    line.extend_from_slice(b" not filtered: ids fall\n")?;
    Ok(Reply::refusal(alloc, line))
}
