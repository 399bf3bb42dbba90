use lists::{Items, Octets, Text};

/// A value of an attribute or a log body (OTLP `AnyValue`).
///
/// A double is its 64 bits (IEEE 754 binary64), so that values are equal exactly where their bits are.
///
/// What goes down a value, as dropping, printing and comparing do, recurses once for each level. Values that are read from
/// outside are at most `MAX_DEPTH` deep; one that a caller builds tens of thousands of levels deep can exhaust the
/// machine's stack.
#[cycle(value)]
#[derive(Debug, Drop)]
pub enum Value {
    Empty,
    Str(Text),
    Bool(bool),
    Int(i64),
    Double(u64),
    Array(Items<Value>),
    Map(Items<Pair>),
    Bytes(Octets),
}

/// A key and its value (OTLP `KeyValue`). A list of pairs may repeat a key.
#[cycle(value)]
#[derive(Debug, Drop)]
pub struct Pair {
    pub key: Text,
    pub value: Value,
}
