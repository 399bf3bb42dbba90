//! Exports requests: a batch message for each, after those of its segment.
ghost use Rattle.std.specs.Prelude.{[], ◌≡◌, ◌≤◌, ◌<◌, ◌+◌, ◌*◌, ℕ, pos, List, true, false, IsTrue, ◌↔◌, IfOk, IfErr, OnOk, OnErr};
ghost use Rattle.std.specs.List.{flat_map};
ghost use Rattle.otlp_model.specs.declared.request.Request.{Request};
ghost use Rattle.otlp_model.specs.Limits.{weight_limit};
ghost use Rattle.otlp_model.specs.Weight.{weight_of};
ghost use Rattle.otlp_model.specs.Profile.{IsProfile};
ghost use Rattle.otlp_model.specs.Real.{IsReal};
ghost use Rattle.otlp_model.specs.Telemetry.{signal_of};
ghost use Rattle.otap_capture.specs.Batch.{payloads_in};
ghost use Rattle.otap_cells.specs.Payload.{kinds_of};
ghost use Rattle.otap_columns.specs.Limits.{tables_limit};
ghost use Rattle.otap_columns.specs.TableSets.{openings};
ghost use Rattle.otap_signals.specs.BySignal.{rows_by, tables_of_request};
ghost use Rattle.otap_produce.specs.Exporters.{Exports, AfterRefusal, Refuses, StandsFor};
ghost use Rattle.otap_produce.specs.Limits.{batch_limit};
ghost use Rattle.otap_produce.specs.Policy.{IsExported};
ghost use Rattle.otap_produce.specs.Senders.{HaveHistory, SendsMessage, kinds_in};
ghost use Rattle.otap_produce.specs.SentMessages.{RefusesUnwritten};

use crate::refusal::ProduceRefusal;
use crate::senders::Senders;
use otap_cells::MAX_ROW_WEIGHT;
use otap_signals::laws::requests_come_back;
use otap_signals::{row_weight, tables_of};
use otlp_model::{MAX_ITEMS, MAX_TREE_WEIGHT, Request, Signal, items, weight};
use std::alloc::{AllocError, Global};
use std::marker::Model;

/// An exporter of the requests of a signal. Of a segment it keeps what decides the next messages: the columns and dictionaries
/// of each kind of table, and the schema ids. A contract sees this state, and `StandsFor` says after which requests and messages
/// an exporter has it. For the same requests it is one state after all messages that the policy allows
/// ([`stands_for_all_messages`](crate::laws::stands_for_all_messages)).
#[derive(Debug, Drop)]
pub struct Exporter {
    alloc: Global,
    signal: Signal,
    senders: Senders,
    batches: u64,
    broken: bool,
}

impl Model for Exporter {
    ghost use Rattle.otap_produce.specs.Exporters.{ExporterIn};

    ghost Value = { ExporterIn };

    ghost use Rattle.otap_produce.specs.Inside.{IsExporter};

    ghost view = { λ e. record { signal = e.signal; sent = e.senders; batches = e.batches; broken = e.broken } };

    ghost invariant = { λ e. IsExporter e.signal e.senders e.batches e.broken };
}

impl Exporter {
    /// An exporter of a signal, at the beginning of a segment.
    pub fn new(alloc: Global, signal: Signal) -> Result<Exporter, AllocError>
        ensures { IfOk result (StandsFor (rows_by signal) [] []) }
    {
        let senders = Senders::new(alloc, signal)?;
        Ok(Exporter {
            alloc,
            signal,
            senders,
            batches: 0,
            broken: false,
        })
    }

    /// The batch message of one more request of the segment. A request that is too large leaves the exporter as it was; where
    /// memory runs out, it is broken until a reset, and what it counts stays as it was.
    pub fn encode(&mut self, request: &Request) -> Result<Vec<u8>, ProduceRefusal>
        requires signal { signal_of request.now ≡ self.old.signal }
        requires profile { IsProfile request.now }
        requires batches { self.old.batches < batch_limit }
        ensures exports { IfOk result (λ bytes. Exports (rows_by self.old.signal) request.now self.old self.new bytes.items) }
        ensures refuses { IfErr result (Refuses (rows_by self.old.signal) request.now self.old.broken) }
        ensures after { IfErr result (λ refusal. AfterRefusal refusal self.old self.new) }
        ensures signal { self.new.signal ≡ self.old.signal }
    {
        self.encode_weighed(request, false)
    }

    /// The same for a request that may be known to weigh at most `MAX_TREE_WEIGHT`: where `light` says so, it isn't weighed.
    pub fn encode_weighed(
        &mut self,
        request: &Request,
        light: bool,
    ) -> Result<Vec<u8>, ProduceRefusal>
        requires signal { signal_of request.now ≡ self.old.signal }
        requires profile { IsProfile request.now }
        requires batches { self.old.batches < batch_limit }
        requires light { IsTrue light → weight_of request.now ≤ weight_limit }
        requires real { IsTrue light → IsReal request.now }
        ensures exports { IfOk result (λ bytes. Exports (rows_by self.old.signal) request.now self.old self.new bytes.items) }
        ensures refuses { IfErr result (Refuses (rows_by self.old.signal) request.now self.old.broken) }
        ensures after { IfErr result (λ refusal. AfterRefusal refusal self.old self.new) }
        ensures signal { self.new.signal ≡ self.old.signal }
    {
        check(self.signal, self.broken, request, light)?;
        self.broken = true;
        let bytes = message_of(
            self.alloc,
            self.signal,
            &mut self.senders,
            self.batches,
            request,
        )?;
        self.batches += 1;
        self.broken = false;
        Ok(bytes)
    }

    /// Begins a new segment.
    pub fn reset(&mut self)
        ensures { StandsFor (rows_by self.old.signal) [] [] self.new }
    {
        self.senders.reset();
        self.batches = 0;
        self.broken = false;
    }

    /// The signal of its requests.
    pub fn signal(&self) -> Signal
        ensures { result ≡ self.now.signal }
    {
        self.signal
    }

    /// Whether memory ran out since the last reset.
    pub fn is_broken(&self) -> bool
        ensures { result ≡ self.now.broken }
    {
        self.broken
    }

    /// How many batches there were since the last reset.
    pub fn batches(&self) -> u64
        ensures { result ≡ self.now.batches }
    {
        self.batches
    }

    /// How many payloads of the batches since the last reset opened a sub-stream.
    pub fn openings(&self) -> u64
        ensures count { result ≡ self.now.sent.openings }
        ensures opened { (requests : List Request) (messages : List (List ℕ)) → StandsFor (rows_by self.now.signal) requests messages self.now
            → result ≡ openings (flat_map payloads_in messages) }
    {
        self.senders.openings()
    }
}

/// Whether a request is exported; nothing is written yet.
fn check(signal: Signal, broken: bool, request: &Request, light: bool) -> Result<(), ProduceRefusal>
    requires signal { signal_of request.now ≡ signal }
    requires profile { IsProfile request.now }
    requires light { IsTrue light → weight_of request.now ≤ weight_limit }
    requires real { IsTrue light → IsReal request.now }
    ensures sound { OnOk result (broken ≡ false) }
    ensures exported { OnOk result (IsExported (rows_by signal) request.now) }
    ensures refuses { IfErr result (RefusesUnwritten (rows_by signal) request.now broken) }
{
    if broken {
        return Err(ProduceRefusal::Broken);
    }
    if items(request) > MAX_ITEMS {
        return Err(ProduceRefusal::TooManyItems);
    }
    if is_heavy(request, light) || row_weight(request) > MAX_ROW_WEIGHT {
        return Err(ProduceRefusal::TooHeavy);
    }
    Ok(())
}

/// Whether a request weighs more than `MAX_TREE_WEIGHT`. One that is known to be light isn't weighed.
fn is_heavy(request: &Request, light: bool) -> bool
    requires light { IsTrue light → weight_of request.now ≤ weight_limit }
    requires real { IsTrue light → IsReal request.now }
    ensures heavy { IsTrue result ↔ (weight_limit < weight_of request.now) }
    ensures real { IsReal request.now }
{
    if light {
        return false;
    }
    weight(request) > MAX_TREE_WEIGHT
}

/// The message of a request that is exported.
fn message_of(
    alloc: Global,
    signal: Signal,
    senders: &mut Senders,
    batches: u64,
    request: &Request,
) -> Result<Vec<u8>, AllocError>
    requires exported { IsExported (rows_by signal) request.now }
    requires kinds { kinds_in senders.old.senders ≡ kinds_of signal }
    requires history { HaveHistory senders.old }
    requires few { senders.old.openings ≤ tables_limit * batches }
    requires batches { batches < batch_limit }
    ensures sends { IfOk result (λ bytes. SendsMessage (pos batches) (tables_of_request request.now) senders.old senders.new bytes.items) }
    ensures kinds { kinds_in senders.new.senders ≡ kinds_in senders.old.senders }
    ensures few { OnOk result (senders.new.openings ≤ senders.old.openings + tables_limit) }
    ensures uncounted { OnErr result (senders.new.openings ≡ senders.old.openings) }
{
    requests_come_back();
    let set = tables_of(alloc, request)?;
    let bytes = senders.send_all(batches as i64, &set.tables)?;
    Ok(bytes)
}
