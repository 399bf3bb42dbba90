//! Log records.
ghost use Rattle.otlp_load.specs.Items.{load_log_record};

use crate::items::{LoadItem, time};
use crate::pairs::{numbered, pairs};
use otlp_model::{LogRecord, Value};
use std::alloc::{AllocError, Global};

impl LoadItem for LogRecord {
    ghost item_of = { load_log_record };

    fn made(alloc: Global, request: u32, number: u32) -> Result<LogRecord, AllocError> {
        let mut log = LogRecord::empty(alloc);
        log.time = time(number);
        log.severity = (1 + number % 24) as i32;
        log.body = Value::Str(numbered(alloc, "message ", number % 5000)?);
        log.pairs = pairs(alloc, request, number)?;
        Ok(log)
    }
}
