ghost use Rattle.std.specs.Prelude.{◌≡◌};
ghost use Rattle.otlp_model.specs.Telemetry.{signal_of};
ghost use Rattle.otlp_model.specs.declared.request.Signal.TheVariants.{Logs};

use otap_produce::*;
use otlp_model::{Items, Request, Signal, is_profile};
use std::alloc::Global;
use std::test::Fail;

/// A request without groups.
fn empty(alloc: Global) -> Request
    ensures { signal_of result ≡ Logs }
{
    Request::Logs(Items::new(alloc))
}

#[test]
fn batches_are_counted(rt: HostRuntime) -> Result<(), Fail> {
    let alloc = rt.alloc();
    let request = empty(alloc);
    assert!(rt; is_profile(&request));
    let mut exporter = Exporter::new(alloc, Signal::Logs)?;
    exporter.encode(&request)?;
    exporter.encode(&request)?;
    assert_eq!(rt; exporter.batches(), 2);
    exporter.reset();
    assert_eq!(rt; exporter.batches(), 0);
    assert!(rt; !exporter.is_broken());
    Ok(())
}
