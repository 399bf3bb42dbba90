//! Which requests tell the same, and what no job shows of weights, of depths and of the profile. Requests are read from
//! messages of OTLP 1.x, which a script spelled field by field; the weights were worked out by hand.
use otlp_codec::read_request;
use otlp_model::*;
use std::alloc::{AllocError, Global};
use std::test::Fail;

/// Two requests that differ in one place, and whether they tell the same.
struct Compared {
    differ_in: &'static str,
    signal: Signal,
    left: &'static [u8],
    right: &'static [u8],
    want: bool,
}

const COMPARED: [Compared; 33] = [
    Compared {
        differ_in: "the time",
        signal: Signal::Logs,
        left: b"\x0a\x04\x12\x02\x12\x00",
        right: b"\x0a\x0d\x12\x0b\x12\x09\x09\x01\x00\x00\x00\x00\x00\x00\x00",
        want: false,
    },
    Compared {
        differ_in: "the severity",
        signal: Signal::Logs,
        left: b"\x0a\x04\x12\x02\x12\x00",
        right: b"\x0a\x06\x12\x04\x12\x02\x10\x01",
        want: false,
    },
    Compared {
        differ_in: "the severity text",
        signal: Signal::Logs,
        left: b"\x0a\x04\x12\x02\x12\x00",
        right: b"\x0a\x07\x12\x05\x12\x03\x1a\x01x",
        want: false,
    },
    Compared {
        differ_in: "the body",
        signal: Signal::Logs,
        left: b"\x0a\x04\x12\x02\x12\x00",
        right: b"\x0a\x08\x12\x06\x12\x04*\x02\x10\x00",
        want: false,
    },
    Compared {
        differ_in: "the attributes",
        signal: Signal::Logs,
        left: b"\x0a\x04\x12\x02\x12\x00",
        right: b"\x0a\x0d\x12\x0b\x12\x092\x07\x0a\x01k\x12\x02\x18\x01",
        want: false,
    },
    Compared {
        differ_in: "the dropped attributes",
        signal: Signal::Logs,
        left: b"\x0a\x04\x12\x02\x12\x00",
        right: b"\x0a\x06\x12\x04\x12\x028\x01",
        want: false,
    },
    Compared {
        differ_in: "the flags",
        signal: Signal::Logs,
        left: b"\x0a\x04\x12\x02\x12\x00",
        right: b"\x0a\x09\x12\x07\x12\x05E\x01\x00\x00\x00",
        want: false,
    },
    Compared {
        differ_in: "the trace id",
        signal: Signal::Logs,
        left: b"\x0a\x04\x12\x02\x12\x00",
        right: b"\x0a\x16\x12\x14\x12\x12J\x10\x07\x07\x07\x07\x07\x07\x07\x07\x07\x07\x07\x07\x07\x07\x07\x07",
        want: false,
    },
    Compared {
        differ_in: "the span id",
        signal: Signal::Logs,
        left: b"\x0a\x04\x12\x02\x12\x00",
        right: b"\x0a\x0e\x12\x0c\x12\x0aR\x08\x07\x07\x07\x07\x07\x07\x07\x07",
        want: false,
    },
    Compared {
        differ_in: "the time observed",
        signal: Signal::Logs,
        left: b"\x0a\x04\x12\x02\x12\x00",
        right: b"\x0a\x0d\x12\x0b\x12\x09Y\x01\x00\x00\x00\x00\x00\x00\x00",
        want: false,
    },
    Compared {
        differ_in: "the event name",
        signal: Signal::Logs,
        left: b"\x0a\x04\x12\x02\x12\x00",
        right: b"\x0a\x07\x12\x05\x12\x03b\x01x",
        want: false,
    },
    Compared {
        differ_in: "the names of events",
        signal: Signal::Traces,
        left: b"\x0a\x8a\x01\x12\x87\x01\x12\x84\x01*\x03get0\x029\x07\x00\x00\x00\x00\x00\x00\x00A\x03\x00\x00\x00\x00\x00\x00\x00J'\x0a\x01k\x12\"2 \x0a\x12\x0a\x01x\x12\x0d*\x0b\x0a\x02\x18\x01\x0a\x05\x0a\x03two\x0a\x0a\x0a\x01y\x12\x05:\x03\x00\x01\x02Z\x0c\x09\x05\x00\x00\x00\x00\x00\x00\x00\x12\x01aZ\x0c\x09\x05\x00\x00\x00\x00\x00\x00\x00\x12\x01bj\x17\x0a\x10\x07\x07\x07\x07\x07\x07\x07\x07\x07\x07\x07\x07\x07\x07\x07\x075\x01\x00\x00\x00z\x0b\x18\xff\xff\xff\xff\xff\xff\xff\xff\xff\x01",
        right: b"\x0a\x8a\x01\x12\x87\x01\x12\x84\x01*\x03get0\x029\x07\x00\x00\x00\x00\x00\x00\x00A\x03\x00\x00\x00\x00\x00\x00\x00J'\x0a\x01k\x12\"2 \x0a\x12\x0a\x01x\x12\x0d*\x0b\x0a\x02\x18\x01\x0a\x05\x0a\x03two\x0a\x0a\x0a\x01y\x12\x05:\x03\x00\x01\x02Z\x0c\x09\x05\x00\x00\x00\x00\x00\x00\x00\x12\x01bZ\x0c\x09\x05\x00\x00\x00\x00\x00\x00\x00\x12\x01aj\x17\x0a\x10\x07\x07\x07\x07\x07\x07\x07\x07\x07\x07\x07\x07\x07\x07\x07\x075\x01\x00\x00\x00z\x0b\x18\xff\xff\xff\xff\xff\xff\xff\xff\xff\x01",
        want: false,
    },
    Compared {
        differ_in: "the trace id of a link",
        signal: Signal::Traces,
        left: b"\x0a\x8a\x01\x12\x87\x01\x12\x84\x01*\x03get0\x029\x07\x00\x00\x00\x00\x00\x00\x00A\x03\x00\x00\x00\x00\x00\x00\x00J'\x0a\x01k\x12\"2 \x0a\x12\x0a\x01x\x12\x0d*\x0b\x0a\x02\x18\x01\x0a\x05\x0a\x03two\x0a\x0a\x0a\x01y\x12\x05:\x03\x00\x01\x02Z\x0c\x09\x05\x00\x00\x00\x00\x00\x00\x00\x12\x01aZ\x0c\x09\x05\x00\x00\x00\x00\x00\x00\x00\x12\x01bj\x17\x0a\x10\x07\x07\x07\x07\x07\x07\x07\x07\x07\x07\x07\x07\x07\x07\x07\x075\x01\x00\x00\x00z\x0b\x18\xff\xff\xff\xff\xff\xff\xff\xff\xff\x01",
        right: b"\x0av\x12t\x12r*\x03get0\x029\x07\x00\x00\x00\x00\x00\x00\x00A\x03\x00\x00\x00\x00\x00\x00\x00J'\x0a\x01k\x12\"2 \x0a\x12\x0a\x01x\x12\x0d*\x0b\x0a\x02\x18\x01\x0a\x05\x0a\x03two\x0a\x0a\x0a\x01y\x12\x05:\x03\x00\x01\x02Z\x0c\x09\x05\x00\x00\x00\x00\x00\x00\x00\x12\x01aZ\x0c\x09\x05\x00\x00\x00\x00\x00\x00\x00\x12\x01bj\x055\x01\x00\x00\x00z\x0b\x18\xff\xff\xff\xff\xff\xff\xff\xff\xff\x01",
        want: false,
    },
    Compared {
        differ_in: "the temporality",
        signal: Signal::Metrics,
        left: b"\x0a*\x12(\x12&:$\x0a\x1e*\x1c\x11\x09\x00\x00\x00\x00\x00\x00\x00\x19\x00\x00\x00\x00\x00\x00\x00\x00\"\x08\x07\x07\x07\x07\x07\x07\x07\x07\x10\x02\x18\x01",
        right: b"\x0a*\x12(\x12&:$\x0a\x1e*\x1c\x11\x09\x00\x00\x00\x00\x00\x00\x00\x19\x00\x00\x00\x00\x00\x00\x00\x00\"\x08\x07\x07\x07\x07\x07\x07\x07\x07\x10\x01\x18\x01",
        want: false,
    },
    Compared {
        differ_in: "an integer and a double",
        signal: Signal::Metrics,
        left: b"\x0a\x11\x12\x0f\x12\x0d*\x0b\x0a\x091\x00\x00\x00\x00\x00\x00\x00\x00",
        right: b"\x0a\x11\x12\x0f\x12\x0d*\x0b\x0a\x09!\x00\x00\x00\x00\x00\x00\x00\x00",
        want: false,
    },
    Compared {
        differ_in: "a sum that is 0",
        signal: Signal::Metrics,
        left: b"\x0a/\x12-\x12+J)\x0a%!\x03\x00\x00\x00\x00\x00\x00\x002\x10\x01\x00\x00\x00\x00\x00\x00\x00\x02\x00\x00\x00\x00\x00\x00\x00:\x08\x07\x00\x00\x00\x00\x00\x00\x00\x10\x02",
        right: b"\x0a8\x126\x124J2\x0a.!\x03\x00\x00\x00\x00\x00\x00\x00)\x00\x00\x00\x00\x00\x00\x00\x002\x10\x01\x00\x00\x00\x00\x00\x00\x00\x02\x00\x00\x00\x00\x00\x00\x00:\x08\x07\x00\x00\x00\x00\x00\x00\x00\x10\x02",
        want: false,
    },
    Compared {
        differ_in: "a bound",
        signal: Signal::Metrics,
        left: b"\x0a/\x12-\x12+J)\x0a%!\x03\x00\x00\x00\x00\x00\x00\x002\x10\x01\x00\x00\x00\x00\x00\x00\x00\x02\x00\x00\x00\x00\x00\x00\x00:\x08\x07\x00\x00\x00\x00\x00\x00\x00\x10\x02",
        right: b"\x0a/\x12-\x12+J)\x0a%!\x03\x00\x00\x00\x00\x00\x00\x002\x10\x01\x00\x00\x00\x00\x00\x00\x00\x02\x00\x00\x00\x00\x00\x00\x00:\x08\x08\x00\x00\x00\x00\x00\x00\x00\x10\x02",
        want: false,
    },
    Compared {
        differ_in: "a quantile",
        signal: Signal::Metrics,
        left: b"\x0a%\x12#\x12!Z\x1f\x0a\x1d!\x01\x00\x00\x00\x00\x00\x00\x002\x09\x11\x01\x00\x00\x00\x00\x00\x00\x00:\x07\x0a\x01k\x12\x02\x18\x01",
        right: b"\x0a%\x12#\x12!Z\x1f\x0a\x1d!\x01\x00\x00\x00\x00\x00\x00\x002\x09\x11\x02\x00\x00\x00\x00\x00\x00\x00:\x07\x0a\x01k\x12\x02\x18\x01",
        want: false,
    },
    Compared {
        differ_in: "a summary and a histogram",
        signal: Signal::Metrics,
        left: b"\x0a%\x12#\x12!Z\x1f\x0a\x1d!\x01\x00\x00\x00\x00\x00\x00\x002\x09\x11\x01\x00\x00\x00\x00\x00\x00\x00:\x07\x0a\x01k\x12\x02\x18\x01",
        right: b"\x0a/\x12-\x12+J)\x0a%!\x03\x00\x00\x00\x00\x00\x00\x002\x10\x01\x00\x00\x00\x00\x00\x00\x00\x02\x00\x00\x00\x00\x00\x00\x00:\x08\x01\x00\x00\x00\x00\x00\x00\x00\x10\x02",
        want: false,
    },
    Compared {
        differ_in: "the order of attributes",
        signal: Signal::Logs,
        left: b"\x0a\x16\x12\x14\x12\x122\x07\x0a\x01k\x12\x02\x18\x012\x07\x0a\x01l\x12\x02\x18\x02",
        right: b"\x0a\x16\x12\x14\x12\x122\x07\x0a\x01l\x12\x02\x18\x022\x07\x0a\x01k\x12\x02\x18\x01",
        want: true,
    },
    Compared {
        differ_in: "the order of attributes, one of which stands twice",
        signal: Signal::Logs,
        left: b"\x0a\x1f\x12\x1d\x12\x1b2\x07\x0a\x01k\x12\x02\x18\x012\x07\x0a\x01k\x12\x02\x18\x012\x07\x0a\x01l\x12\x02\x18\x02",
        right: b"\x0a\x1f\x12\x1d\x12\x1b2\x07\x0a\x01k\x12\x02\x18\x012\x07\x0a\x01l\x12\x02\x18\x022\x07\x0a\x01k\x12\x02\x18\x01",
        want: true,
    },
    Compared {
        differ_in: "which attribute stands twice",
        signal: Signal::Logs,
        left: b"\x0a\x1f\x12\x1d\x12\x1b2\x07\x0a\x01k\x12\x02\x18\x012\x07\x0a\x01k\x12\x02\x18\x012\x07\x0a\x01l\x12\x02\x18\x02",
        right: b"\x0a\x1f\x12\x1d\x12\x1b2\x07\x0a\x01k\x12\x02\x18\x012\x07\x0a\x01l\x12\x02\x18\x022\x07\x0a\x01l\x12\x02\x18\x02",
        want: false,
    },
    Compared {
        differ_in: "how often an attribute stands",
        signal: Signal::Logs,
        left: b"\x0a\x16\x12\x14\x12\x122\x07\x0a\x01k\x12\x02\x18\x012\x07\x0a\x01k\x12\x02\x18\x01",
        right: b"\x0a\x0d\x12\x0b\x12\x092\x07\x0a\x01k\x12\x02\x18\x01",
        want: false,
    },
    Compared {
        differ_in: "the order of the pairs of a body",
        signal: Signal::Logs,
        left: b"\x0a\x1a\x12\x18\x12\x16*\x142\x12\x0a\x07\x0a\x01k\x12\x02\x18\x01\x0a\x07\x0a\x01l\x12\x02\x18\x02",
        right: b"\x0a\x1a\x12\x18\x12\x16*\x142\x12\x0a\x07\x0a\x01l\x12\x02\x18\x02\x0a\x07\x0a\x01k\x12\x02\x18\x01",
        want: false,
    },
    Compared {
        differ_in: "two groups and one",
        signal: Signal::Logs,
        left: b"\x0a\x06\x12\x04\x12\x00\x12\x00\x0a\x00",
        right: b"\x0a\x04\x12\x02\x12\x00\x0a\x04\x12\x02\x12\x00",
        want: true,
    },
    Compared {
        differ_in: "the URL of a resource",
        signal: Signal::Logs,
        left: b"\x0a\x06\x12\x04\x12\x00\x12\x00\x0a\x00",
        right: b"\x0a\x04\x12\x02\x12\x00\x0a\x07\x12\x02\x12\x00\x1a\x01u",
        want: false,
    },
    Compared {
        differ_in: "the dropped attributes of a resource",
        signal: Signal::Logs,
        left: b"\x0a\x06\x12\x04\x12\x00\x12\x00\x0a\x00",
        right: b"\x0a\x04\x12\x02\x12\x00\x0a\x08\x0a\x02\x10\x01\x12\x02\x12\x00",
        want: false,
    },
    Compared {
        differ_in: "the attributes of a resource",
        signal: Signal::Logs,
        left: b"\x0a\x06\x12\x04\x12\x00\x12\x00\x0a\x00",
        right: b"\x0a\x04\x12\x02\x12\x00\x0a\x0f\x0a\x09\x0a\x07\x0a\x01k\x12\x02\x18\x01\x12\x02\x12\x00",
        want: false,
    },
    Compared {
        differ_in: "the URL of a scope",
        signal: Signal::Logs,
        left: b"\x0a\x06\x12\x04\x12\x00\x12\x00\x0a\x00",
        right: b"\x0a\x04\x12\x02\x12\x00\x0a\x07\x12\x05\x12\x00\x1a\x01u",
        want: false,
    },
    Compared {
        differ_in: "the version of a scope",
        signal: Signal::Logs,
        left: b"\x0a\x06\x12\x04\x12\x00\x12\x00\x0a\x00",
        right: b"\x0a\x04\x12\x02\x12\x00\x0a\x09\x12\x07\x0a\x03\x12\x01v\x12\x00",
        want: false,
    },
    Compared {
        differ_in: "the dropped attributes of a scope",
        signal: Signal::Logs,
        left: b"\x0a\x06\x12\x04\x12\x00\x12\x00\x0a\x00",
        right: b"\x0a\x04\x12\x02\x12\x00\x0a\x08\x12\x06\x0a\x02 \x01\x12\x00",
        want: false,
    },
    Compared {
        differ_in: "the number of records",
        signal: Signal::Logs,
        left: b"\x0a\x06\x12\x04\x12\x00\x12\x00\x0a\x00",
        right: b"\x0a\x04\x12\x02\x12\x00",
        want: false,
    },
    Compared {
        differ_in: "no records and a group of none",
        signal: Signal::Logs,
        left: b"",
        right: b"\x0a\x02\x12\x00",
        want: true,
    },
];

fn read(alloc: Global, signal: Signal, message: &[u8]) -> Option<Request> {
    read_request(alloc, signal, message).ok()
}

/// A record with no body.
const RECORD: &[u8] = b"\x0a\x04\x12\x02\x12\x00";

/// A group without records.
const NO_RECORDS: &[u8] = b"\x0a\x02\x12\x00";

fn items_and_weight(request: &Request) -> (u64, u64) {
    (items(request), weight(request))
}

#[test]
fn a_group_without_records_weighs(rt: HostRuntime) -> Result<(), Fail> {
    let request = read(rt.alloc(), Signal::Logs, NO_RECORDS);
    assert_eq!(rt; request.as_ref().map(items_and_weight), Some((0, 64)));
    Ok(())
}

/// Whether two messages tell the same, asked both ways.
fn are_same(alloc: Global, signal: Signal, left: &[u8], right: &[u8]) -> Option<(bool, bool)> {
    let left = read(alloc, signal, left)?;
    let right = read(alloc, signal, right)?;
    Some((same(&left, &right), same(&right, &left)))
}

#[test]
fn compares(rt: HostRuntime) -> Result<(), Fail> {
    let alloc = rt.alloc();
    for row in &COMPARED {
        let both = are_same(alloc, row.signal, row.left, row.right);
        assert_eq!(rt; both, Some((row.want, row.want)), "{}", row.differ_in);
        let itself = are_same(alloc, row.signal, row.right, row.right);
        assert_eq!(rt; itself, Some((true, true)), "{}", row.differ_in);
    }
    Ok(())
}

/// No items of one signal tell the same as no items of another.
#[test]
fn compares_signals(rt: HostRuntime) -> Result<(), Fail> {
    let alloc = rt.alloc();
    let spans = Request::Traces(Items::new(alloc));
    assert_eq!(rt; spans.signal(), Signal::Traces);
    for (message, want) in [(RECORD, false), (NO_RECORDS, true)] {
        let records = read(alloc, Signal::Logs, message);
        let is_same = records.as_ref().map(|records| same(&spans, records));
        assert_eq!(rt; is_same, Some(want));
    }
    Ok(())
}

/// The body of the first record of a request.
fn body_of(request: &Request) -> Option<&Value> {
    let Request::Logs(groups) = request else {
        return None;
    };
    let scope = groups.get(0)?.scopes.get(0)?;
    Some(&scope.items.get(0)?.body)
}

/// A record with the body `{x: [1, "two"], y: 00 01 02}`.
const NESTED: &[u8] =
    b"\x0a(\x12&\x12$*\"2 \x0a\x12\x0a\x01x\x12\x0d*\x0b\x0a\x02\x18\x01\x0a\x05\x0a\x03two\x0a\x0a\x0a\x01y\x12\x05:\x03\x00\x01\x02";

#[test]
fn measures_values(rt: HostRuntime) -> Result<(), Fail> {
    let alloc = rt.alloc();
    assert_eq!(rt; depth(&Value::Array(Items::new(alloc))), 1);
    assert_eq!(rt; depth(&Value::Map(Items::new(alloc))), 1);
    let request = read(alloc, Signal::Logs, NESTED);
    let body = request.as_ref().and_then(body_of);
    assert_eq!(rt;
        body.map(|value| (depth(value), value_weight(value))),
        Some((3, 136))
    );
    Ok(())
}

fn one<T: Drop>(alloc: Global, item: T) -> Result<Items<T>, AllocError> {
    let mut items = Items::new(alloc);
    items.push(item)?;
    Ok(items)
}

fn id(alloc: Global, len: usize) -> Result<Octets, AllocError> {
    let mut id = Octets::new(alloc);
    for _ in 0..len {
        id.push(7)?;
    }
    Ok(id)
}

/// An array round an array, and so on, `depth` deep.
fn tower(alloc: Global, depth: usize) -> Result<Value, AllocError> {
    let mut value = Value::Bool(true);
    for _ in 1..depth {
        value = Value::Array(one(alloc, value)?);
    }
    Ok(value)
}

fn request_of(alloc: Global, record: LogRecord) -> Result<Request, AllocError> {
    let scope = Scope {
        schema_url: Text::new(alloc),
        name: Text::new(alloc),
        version: Text::new(alloc),
        dropped: 0,
        pairs: Items::new(alloc),
    };
    let items = one(alloc, record)?;
    let scopes = one(alloc, ScopeGroup { scope, items })?;
    let resource = Resource {
        schema_url: Text::new(alloc),
        dropped: 0,
        pairs: Items::new(alloc),
    };
    Ok(Request::Logs(one(alloc, ResourceGroup { resource, scopes })?))
}

/// A record whose body is that deep, with ids of these lengths. No reader gives one that isn't of the profile.
fn record_of(
    alloc: Global,
    deep: usize,
    trace_len: usize,
    span_len: usize,
) -> Result<Request, AllocError> {
    let body = tower(alloc, deep)?;
    let trace_id = id(alloc, trace_len)?;
    let span_id = id(alloc, span_len)?;
    let record = LogRecord {
        time: 0,
        observed: 0,
        severity: 0,
        severity_text: Text::new(alloc),
        body,
        pairs: Items::new(alloc),
        dropped: 0,
        flags: 0,
        trace_id,
        span_id,
        event_name: Text::new(alloc),
    };
    request_of(alloc, record)
}

#[test]
fn knows_the_profile(rt: HostRuntime) -> Result<(), Fail> {
    let rows = [
        (32, 0, 0, true),
        (33, 0, 0, false),
        (1, 8, 0, false),
        (1, 15, 0, false),
        (1, 16, 0, true),
        (1, 0, 7, false),
        (1, 0, 8, true),
        (1, 0, 16, false),
    ];
    for (deep, trace_len, span_len, want) in rows {
        let request = record_of(rt.alloc(), deep, trace_len, span_len)?;
        assert_eq!(rt;
            is_profile(&request),
            want,
            "{deep} deep, ids of {trace_len} and {span_len} bytes"
        );
    }
    Ok(())
}

#[test]
fn adds_up_to_the_cap(rt: HostRuntime) -> Result<(), Fail> {
    assert_eq!(rt; (sum_capped(&[2, 3]), add_capped(CAP, 1)), (5, CAP));
    Ok(())
}
