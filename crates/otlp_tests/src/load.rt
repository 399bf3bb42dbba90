//! Items of the load, compared with values that were computed by hand.
use otlp_load::*;
use otlp_model::{Items, Number, Pair, Request, ResourceGroup, Shape, Signal, Value};
use std::alloc::{AllocError, Global};
use std::test::Fail;

/// The value in text: a double by its bits.
fn value_text(alloc: Global, value: &Value) -> Result<String, AllocError> {
    match value {
        Value::Str(text) => String::from_str(alloc, text.as_str()),
        Value::Int(number) => format!(in alloc; "{number}"),
        Value::Bool(truth) => format!(in alloc; "{truth}"),
        Value::Double(bits) => format!(in alloc; "{bits:x}"),
        _ => String::from_str(alloc, "other"),
    }
}

fn pairs_text(alloc: Global, pairs: &Items<Pair>) -> Result<String, AllocError> {
    let mut text = String::new(alloc);
    for pair in pairs.as_slice() {
        let value = value_text(alloc, &pair.value)?;
        text.push_str(pair.key.as_str())?;
        text.push_str("=")?;
        text.push_str(&value)?;
        text.push_str(" ")?;
    }
    Ok(text)
}

/// How many items a group has, and its item at a place.
fn item<I>(groups: &Items<ResourceGroup<I>>, group: usize, place: usize) -> Option<(usize, &I)> {
    let items = &groups.get(group)?.scopes.get(0)?.items;
    Some((items.len(), items.get(place)?))
}

/// The pairs of each item of request 999 that has the number 8,191,997.
const LAST_PAIRS: &str = "k0=v61 k1=997 k2=true k3=415f3fff40000000 k4=v1 k5=997 k6=true \
                          k7=415f3fff40000000 k8=batch-999 k9=997 k10=true k11=415f3fff40000000 ";

#[test]
fn logs(rt: HostRuntime) -> Result<(), Fail> {
    let alloc = rt.alloc();
    let Request::Logs(groups) = generated(alloc, Signal::Logs, 999)? else {
        return Ok(assert!(rt; false));
    };
    let Some((count, log)) = item(&groups, 2, 2729) else {
        return Ok(assert!(rt; false));
    };
    assert_eq!(rt; count, 2730);
    assert_eq!(rt; log.time, 8_191_997_000_000_000);
    assert_eq!(rt; log.severity, 6);
    let body = value_text(alloc, &log.body)?;
    assert_eq!(rt; body.as_str(), "message 1997");
    let pairs = pairs_text(alloc, &log.pairs)?;
    assert_eq!(rt; pairs.as_str(), LAST_PAIRS);
    Ok(())
}

#[test]
fn traces(rt: HostRuntime) -> Result<(), Fail> {
    let alloc = rt.alloc();
    let Request::Traces(groups) = generated(alloc, Signal::Traces, 999)? else {
        return Ok(assert!(rt; false));
    };
    let Some((count, span)) = item(&groups, 2, 2729) else {
        return Ok(assert!(rt; false));
    };
    assert_eq!(rt; count, 2730);
    let id = [
        0, 0, 0, 0, 0, 0x7c, 0xff, 0xfd, 0, 0, 0, 0, 0, 0x7c, 0xff, 0xfd,
    ];
    assert_eq!(rt; span.trace_id.as_slice(), id.as_slice());
    assert_eq!(rt; span.span_id.as_slice(), &id[..8]);
    assert_eq!(rt; span.name.as_str(), "op-197");
    assert_eq!(rt;
        (span.kind, span.start, span.end),
        (3, 8_191_997_000_000_000, 8_191_997_000_000_597)
    );
    let names = ["e0", "e1"];
    assert_eq!(rt; span.events.len(), names.len());
    for (event, name) in span.events.as_slice().iter().zip(names.iter()) {
        assert_eq!(rt; event.name.as_str(), *name);
        assert_eq!(rt; event.time, 8_191_997_000_000_000);
    }
    Ok(())
}

#[test]
fn metrics(rt: HostRuntime) -> Result<(), Fail> {
    let alloc = rt.alloc();
    let Request::Metrics(groups) = generated(alloc, Signal::Metrics, 0)? else {
        return Ok(assert!(rt; false));
    };
    let Some((count, metric)) = item(&groups, 1, 1) else {
        return Ok(assert!(rt; false));
    };
    assert_eq!(rt; count, 2731);
    assert_eq!(rt; (metric.name.as_str(), metric.unit.as_str()), ("m-4", "1"));
    let Shape::Gauge(points) = &metric.shape else {
        return Ok(assert!(rt; false));
    };
    let Some(point) = points.get(0) else {
        return Ok(assert!(rt; false));
    };
    assert_eq!(rt; (points.len(), point.time), (1, 4_000_000_000));
    assert_eq!(rt; point.value, Number::Double(0x4010_0000_0000_0000));
    assert_eq!(rt; groups.len(), 3);
    let Some(group) = groups.get(2) else {
        return Ok(assert!(rt; false));
    };
    let pairs = pairs_text(alloc, &group.resource.pairs)?;
    assert_eq!(rt; pairs.as_str(), "service.name=svc-2 host.id=2 ");
    let Some(scope) = group.scopes.get(0) else {
        return Ok(assert!(rt; false));
    };
    assert_eq!(rt;
        (scope.scope.name.as_str(), scope.scope.version.as_str()),
        ("gen", "1")
    );
    assert_eq!(rt; scope.scope.pairs.len(), 0);
    Ok(())
}
