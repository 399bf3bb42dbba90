//! The resending exporter.

ghost use Rattle.std.specs.Prelude.{◌≡◌, ◌<◌, length, IfOk, IfErr, IfNone, IfSome, OnOk};
ghost use Rattle.otlp_model.specs.Profile.{IsProfile};
ghost use Rattle.otlp_model.specs.Telemetry.{signal_of};
ghost use Rattle.otap_signals.specs.BySignal.{rows_by};
ghost use Rattle.otap_produce.specs.Limits.{batch_limit};
ghost use Rattle.otap_resend.specs.Inside.{TakesMore, TakesNone};
ghost use Rattle.otap_resend.specs.Resenders.{HasState, TakesTurn, AfterRefusal, LeavesAlone, Resends, not_sent, not_resent, outcome_of};
ghost use Rattle.otap_resend.specs.States.{Send, Answer, Reset, Resend, Wrote, Nothing, new_state};

use crate::refusal::{
    Answered, NotSent, ResendRefusal, SendRefusal, is_accepted, is_refused, refusal_of,
};
use crate::unanswered::{Unanswered, keep, place_unwritten, place_with_id, remove_ids};
use otap_capture::Status;
use otap_produce::{Exporter, ProduceRefusal};
use otlp_model::{Request, Signal};
use std::alloc::{AllocError, Global};
use std::marker::Model;

/// An exporter that keeps each request until a status says that it is done. After a reset it writes again what isn't answered.
/// A contract sees what it keeps, and `HasState` says which state that is.
#[derive(Debug, Drop)]
pub struct Resender {
    exporter: Exporter,
    window: u32,
    unanswered: Vec<Unanswered>,
    sent: u64,
}

impl Model for Resender {
    ghost use Rattle.std.specs.Prelude.{vec_capacity};
    ghost use Rattle.otap_signals.specs.BySignal.{rows_by};
    ghost use Rattle.otap_resend.specs.Inside.{IsResender};
    ghost use Rattle.otap_resend.specs.Resenders.{ResenderIn};
    ghost use Rattle.std.specs.Coded.{codes};
    ghost use Rattle.otap_resend.specs.contracts.unanswered.Unanswered as kept;

    ghost Value = { ResenderIn };

    ghost coded = { Prim.hlevel (codes, kept.the_row.coded) };

    ghost view = { λ r. record { window = r.window; unanswered = r.unanswered.items; sent = r.sent; exporter = r.exporter } };

    ghost invariant = { λ r. IsResender (rows_by r.exporter.signal) r.window r.sent r.exporter.batches (vec_capacity r.unanswered) r.unanswered.items };
}

impl Resender {
    /// A resending exporter of a signal, at the beginning of a segment. It takes the room for so many unanswered requests as the
    /// window; those of the profile are from 1 to 64.
    pub fn new(alloc: Global, signal: Signal, window: u32) -> Result<Resender, AllocError>
        ensures { IfOk result (HasState (rows_by signal) (new_state window)) }
    {
        let exporter = Exporter::new(alloc, signal)?;
        let unanswered = Vec::with_capacity(alloc, window as usize)?;
        Ok(Resender {
            exporter,
            window,
            unanswered,
            sent: 0,
        })
    }

    /// The batch message of one more request of the resender's signal. The request gets the next number and is kept. One that isn't
    /// sent is handed back; where memory runs out, nothing more is written until a reset.
    pub fn send(&mut self, request: Request) -> Result<Vec<u8>, NotSent>
        requires signal { signal_of request ≡ self.old.exporter.signal }
        requires profile { IsProfile request }
        requires sent { self.old.sent < batch_limit }
        ensures sends { IfOk result (λ message. TakesTurn (Send request) (Wrote message.items) self.old self.new) }
        ensures refuses { IfErr result (λ e. TakesTurn (Send request) (not_sent e.why) self.old self.new) }
        ensures hands_back { IfErr result (λ e. e.request ≡ request) }
        ensures after { IfErr result (λ e. AfterRefusal (not_sent e.why) self.old self.new) }
    {
        if let Err(why) = self.check() {
            return Err(NotSent { request, why });
        }
        let id = self.exporter.batches();
        match self.exporter.encode(&request) {
            Ok(message) => {
                let kept = Unanswered {
                    number: self.sent,
                    request,
                    id: Some(id),
                };
                keep(&mut self.unanswered, kept);
                self.sent += 1;
                Ok(message)
            }
            Err(refusal) => Err(NotSent {
                request,
                why: refusal_of(refusal),
            }),
        }
    }

    /// Whether one more request can be sent, whatever it is.
    fn check(&self) -> Result<(), SendRefusal>
        ensures takes { OnOk result (TakesMore self.now) }
        ensures refuses { IfErr result (TakesNone self.now) }
    {
        if self.unanswered.len() >= self.window as usize {
            return Err(SendRefusal::Full);
        }
        if place_unwritten(&self.unanswered).is_some() {
            return Err(SendRefusal::Pending);
        }
        if self.exporter.is_broken() {
            return Err(SendRefusal::Broken);
        }
        Ok(())
    }

    /// What a status means for the request of its batch. Only batches since the last reset have an id.
    pub fn answer(&mut self, status: &Status<'_>) -> Answered
        ensures turn { TakesTurn (Answer status.now.id status.now.code) (outcome_of result) self.old self.new }
        ensures leaves { LeavesAlone (outcome_of result) self.old self.new }
    {
        let Some(place) = place_with_id(&self.unanswered, status.id) else {
            return Answered::Unknown;
        };
        if is_accepted(status.code) {
            let done = self.unanswered.remove(place);
            return Answered::Done(done.number);
        }
        if is_refused(status.code) {
            let Unanswered {
                number,
                request,
                ..
            } = self.unanswered.remove(place);
            return Answered::GivenUp { number, request };
        }
        Answered::Kept(self.unanswered[place].number)
    }

    /// Begins a new segment: all unanswered requests are to be written again.
    pub fn reset(&mut self)
        ensures { TakesTurn Reset Nothing self.old self.new }
    {
        self.exporter.reset();
        remove_ids(&mut self.unanswered);
    }

    /// Writes the unanswered request with the least number that wasn't written since the last reset, or returns `None` where there
    /// is none. Where memory runs out, nothing more is written until the next reset.
    pub fn resend(&mut self) -> Result<Option<Vec<u8>>, ResendRefusal>
        ensures none { IfOk result (λ made. IfNone made (TakesTurn Resend Nothing self.old self.new)) }
        ensures unchanged { IfOk result (λ made. IfNone made (self.new ≡ self.old)) }
        ensures resends { IfOk result (λ made. IfSome made (λ m. Resends m.items self.old self.new)) }
        ensures refuses { IfErr result (λ why. TakesTurn Resend (not_resent why) self.old self.new) }
        ensures after { IfErr result (λ why. AfterRefusal (not_resent why) self.old self.new) }
    {
        if self.exporter.is_broken() {
            return Err(ResendRefusal::Broken);
        }
        let Some(place) = place_unwritten(&self.unanswered) else {
            return Ok(None);
        };
        let id = self.exporter.batches();
        match self.exporter.encode(&self.unanswered[place].request) {
            Ok(message) => {
                self.unanswered[place].id = Some(id);
                Ok(Some(message))
            }
            Err(ProduceRefusal::Memory(error)) => Err(ResendRefusal::Memory(error)),
            Err(_) => unreachable!(),
        }
    }

    /// How many requests were sent.
    pub fn sent(&self) -> u64
        ensures { result ≡ self.now.sent }
    {
        self.sent
    }

    /// How many requests that were sent are neither done nor given up.
    pub fn unanswered(&self) -> u32
        ensures { result ≡ length self.now.unanswered }
    {
        self.unanswered.len() as u32
    }

    /// Whether memory ran out since the last reset.
    pub fn is_broken(&self) -> bool
        ensures { result ≡ self.now.exporter.broken }
    {
        self.exporter.is_broken()
    }
}
